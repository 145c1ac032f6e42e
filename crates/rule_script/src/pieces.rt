//! Pieces of a line: it is cut between each two bytes that do not go together.
ghost use Rattle.std.specs.Prelude.{◌≡◌, ◌==◌, ◌||◌, ◌∷◌, ◌<◌, ◌≤◌, length, take, drop};
ghost use Rattle.std.specs.List.{prefix_len};
ghost use Rattle.rule_script.specs.Tokens.{goes_on_name, pieces};

/// Whether a run of name bytes goes on with the byte.
pub(crate) fn goes_on(byte: u8) -> bool
    ensures { result ≡ goes_on_name byte }
{
    byte.is_ascii_alphanumeric() || byte == b'_' || byte == b'.' || byte == b'-'
}

/// Whether a run of name bytes may stand after the byte, in one piece with it.
fn leads(byte: u8) -> bool
    ensures { result ≡ ((byte == 36) || goes_on_name byte) }
{
    byte == b'$' || goes_on(byte)
}

/// How many name bytes stand at the front.
fn run_len(bytes: &[u8]) -> usize
    ensures run { result ≡ prefix_len goes_on_name bytes.now }
    ensures within { result ≤ length bytes.now }
{
    let mut len = 0;
    let mut rest = bytes;
    'bytes: while let [first, after @ ..] = rest {
        if !goes_on(*first) {
            break;
        }
        len += 1;
        rest = after;
    }
    len
}

#[tactic(auto, using(crate::proofs::PieceLemmas::piece_alone, crate::proofs::PieceLemmas::piece_run))]
/// How many bytes the first piece has.
pub(crate) fn piece_len(bytes: &[u8]) -> usize
    requires { 0 < length bytes.now }
    ensures some { 0 < result }
    ensures within { result ≤ length bytes.now }
    ensures piece { pieces bytes.now ≡ take result bytes.now ∷ pieces (drop result bytes.now) }
{
    if leads(bytes[0]) {
        1 + run_len(&bytes[1..])
    } else {
        1
    }
}
