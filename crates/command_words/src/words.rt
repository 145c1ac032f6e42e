//! The words of the command line.

ghost use Rattle.std.specs.Prelude.{◌≡◌, ◌≢◌, [], ◌∷◌, option_map, IfSome};
ghost use Rattle.command_words.specs.Prelude.{are_names, asked, command_of, cut, demo, explain, generate, HasFilesApart, is_name, is_plain, meaning, number_of, parts, plan};

/// A command, with the names of its files, and its seed, its budget of decisions, the number of a part, or whether the
/// check is strict.
#[derive(Clone, Copy, Debug, PartialEq, Eq)]
pub enum Command<'a> {
    /// Plans the instance with at most so many decisions, and writes the plan and its certificate.
    Plan {
        instance: &'a str,
        plan_file: &'a str,
        certificate: &'a str,
        budget: u64,
    },
    /// Checks the certificate of a plan of the instance, or of none; strict: whether its tree has to be lean.
    Check {
        instance: &'a str,
        plan_file: &'a str,
        certificate: &'a str,
        strict: bool,
    },
    /// Replays a plan of the instance, and prints the verdict on it.
    Replay {
        instance: &'a str,
        plan_file: &'a str,
    },
    /// Lists a plan of the instance, line by line.
    Show {
        instance: &'a str,
        plan_file: &'a str,
    },
    /// Draws a plan of the instance into a file, and prints the verdict on it.
    Picture {
        instance: &'a str,
        plan_file: &'a str,
        picture_file: &'a str,
    },
    /// Adds the constraints of a script to the instance, and writes the whole into a file.
    Script {
        instance: &'a str,
        script_file: &'a str,
        out_file: &'a str,
    },
    /// Executes a plan of the instance: prints starts, and reads event lines.
    Execute {
        instance: &'a str,
        plan_file: &'a str,
    },
    /// Reads what became of a plan of the instance, and writes the problem and the plan that are left.
    Repair {
        instance: &'a str,
        plan_file: &'a str,
        new_instance: &'a str,
        new_plan: &'a str,
    },
    /// Explains why the instance has no valid plan, with at most so many decisions in each search, and writes the constraints
    /// that are needed and their certificate.
    Explain {
        instance: &'a str,
        core: &'a str,
        certificate: &'a str,
        budget: u64,
    },
    /// Writes the part of that number as an instance of its own, where the groups split the instance.
    Cut {
        instance: &'a str,
        groups_file: &'a str,
        number: u64,
        part_file: &'a str,
    },
    /// Plans the parts into which the groups split the instance, each with at most so many decisions, and writes the plan
    /// of the whole and the certificates.
    Parts {
        instance: &'a str,
        groups_file: &'a str,
        plan_file: &'a str,
        certificate: &'a str,
        budget: u64,
    },
    /// Checks the certificates of the parts into which the groups split the instance, for a plan of the whole, or for none.
    CheckParts {
        instance: &'a str,
        groups_file: &'a str,
        plan_file: &'a str,
        certificate: &'a str,
    },
    /// Generates the problem of a seed, and writes it as the instance.
    Generate {
        seed: u64,
        instance: &'a str,
    },
    /// Generates the problem of a seed, plans it and checks the certificate.
    Demo {
        seed: u64,
    },
}

/// How many decisions a plan, or that of a part, may take where the words do not say it.
pub const BUDGET: u64 = 100_000;

/// How many decisions each search of an explanation may take where the words do not say it.
pub const EXPLAIN_BUDGET: u64 = 10_000;

/// The most bytes of a file's name.
pub const LONGEST_NAME: usize = 4096;

fn is_name(word: &str) -> bool
    ensures { result ≡ is_name word.now }
{
    1 <= word.len() && word.len() <= LONGEST_NAME
}

fn are_two_names(first: &str, second: &str) -> bool
    ensures { result ≡ are_names (first.now ∷ second.now ∷ []) }
{
    is_name(first) && first != second && is_name(second)
}

fn are_three_names(first: &str, second: &str, third: &str) -> bool
    ensures { result ≡ are_names (first.now ∷ second.now ∷ third.now ∷ []) }
{
    is_name(first) && first != second && first != third && are_two_names(second, third)
}

fn are_four_names(first: &str, second: &str, third: &str, fourth: &str) -> bool
    ensures { result ≡ are_names (first.now ∷ second.now ∷ third.now ∷ fourth.now ∷ []) }
{
    is_name(first)
        && first != second
        && first != third
        && first != fourth
        && are_three_names(second, third, fourth)
}

/// Whether a word that is a number has no sign and no leading zero.
fn is_plain(word: &[u8]) -> bool
    ensures { result ≡ is_plain word.now }
{
    match word {
        [] => false,
        [first] => *first != b'+',
        [first, ..] => *first != b'+' && *first != b'0',
    }
}

/// The number below 2^64 whose decimal text a word is.
#[tactic(auto, using(crate::proofs::Numbers::number_rules))]
fn number_of(word: &str) -> Option<u64>
    ensures { result ≡ number_of word.now }
{
    match word.parse::<u64>() {
        Ok(number) if is_plain(word.as_bytes()) => Some(number),
        _ => None,
    }
}

/// The command `generate` with the seed that a word is.
fn generating<'a>(seed: &str, instance: &'a str) -> Option<Command<'a>>
    ensures meaning { let command = option_map (λ seed. generate seed instance.now) (number_of seed.now) in
        option_map meaning result ≡ command }
    ensures apart { IfSome result (λ command. HasFilesApart (meaning command)) }
{
    match number_of(seed) {
        Some(seed) => Some(Command::Generate { seed, instance }),
        None => None,
    }
}

/// The command that this word is before a seed.
fn with_one<'a>(word: &str, seed: &str) -> Option<Command<'a>>
    ensures meaning { option_map meaning result ≡ command_of (word.now ∷ seed.now ∷ []) }
    ensures apart { IfSome result (λ command. HasFilesApart (meaning command)) }
{
    if word != "demo" {
        return None;
    }
    match number_of(seed) {
        Some(seed) => Some(Command::Demo { seed }),
        None => None,
    }
}

/// The command that this word is before the names of two files, or before a seed and the name of a file.
fn with_two<'a>(word: &str, first: &'a str, second: &'a str) -> Option<Command<'a>>
    ensures meaning { let command = command_of (word.now ∷ first.now ∷ second.now ∷ []) in
        option_map meaning result ≡ command }
    ensures apart { IfSome result (λ command. HasFilesApart (meaning command)) }
{
    if word == "replay" && are_two_names(first, second) {
        Some(Command::Replay {
            instance: first,
            plan_file: second,
        })
    } else if word == "show" && are_two_names(first, second) {
        Some(Command::Show {
            instance: first,
            plan_file: second,
        })
    } else if word == "execute" && are_two_names(first, second) {
        Some(Command::Execute {
            instance: first,
            plan_file: second,
        })
    } else if word == "generate" && is_name(second) {
        generating(first, second)
    } else {
        None
    }
}

/// The command that this word is before the names of three files.
fn with_three<'a>(
    word: &str,
    first: &'a str,
    second: &'a str,
    third: &'a str,
) -> Option<Command<'a>>
    ensures meaning { let command = command_of (word.now ∷ first.now ∷ second.now ∷ third.now ∷ []) in
        option_map meaning result ≡ command }
    ensures apart { IfSome result (λ command. HasFilesApart (meaning command)) }
{
    if word == "plan" && are_three_names(first, second, third) {
        Some(Command::Plan {
            instance: first,
            plan_file: second,
            certificate: third,
            budget: BUDGET,
        })
    } else if word == "check" && are_three_names(first, second, third) {
        Some(Command::Check {
            instance: first,
            plan_file: second,
            certificate: third,
            strict: false,
        })
    } else if word == "picture" && are_three_names(first, second, third) {
        Some(Command::Picture {
            instance: first,
            plan_file: second,
            picture_file: third,
        })
    } else if word == "script" && are_three_names(first, second, third) {
        Some(Command::Script {
            instance: first,
            script_file: second,
            out_file: third,
        })
    } else if word == "explain" && are_three_names(first, second, third) {
        Some(Command::Explain {
            instance: first,
            core: second,
            certificate: third,
            budget: EXPLAIN_BUDGET,
        })
    } else {
        None
    }
}

/// The command `cut` with the number of a part that a word is.
fn cutting<'a>(
    instance: &'a str,
    groups_file: &'a str,
    number: &str,
    part_file: &'a str,
) -> Option<Command<'a>>
    ensures meaning { let command = option_map (λ number. cut instance.now groups_file.now number part_file.now) (number_of number.now) in
        option_map meaning result ≡ command }
    ensures apart { IfSome result (λ command. HasFilesApart (meaning command)) }
{
    match number_of(number) {
        Some(number) => Some(Command::Cut {
            instance,
            groups_file,
            number,
            part_file,
        }),
        None => None,
    }
}

/// The command that this word is before the names of three files and a last word, which may be a fourth name, or before
/// the names of two files, a number and the name of a file.
fn with_last<'a>(
    word: &str,
    first: &'a str,
    second: &'a str,
    third: &'a str,
    last: &'a str,
) -> Option<Command<'a>>
    ensures meaning { let words = word.now ∷ first.now ∷ second.now ∷ third.now ∷ last.now ∷ [] in
        option_map meaning result ≡ command_of words }
    ensures apart { IfSome result (λ command. HasFilesApart (meaning command)) }
{
    if word == "check" && last == "strict" && are_three_names(first, second, third) {
        Some(Command::Check {
            instance: first,
            plan_file: second,
            certificate: third,
            strict: true,
        })
    } else if word == "repair" && are_four_names(first, second, third, last) {
        Some(Command::Repair {
            instance: first,
            plan_file: second,
            new_instance: third,
            new_plan: last,
        })
    } else if word == "cut" && are_three_names(first, second, last) {
        cutting(first, second, third, last)
    } else if word == "parts" && are_four_names(first, second, third, last) {
        Some(Command::Parts {
            instance: first,
            groups_file: second,
            plan_file: third,
            certificate: last,
            budget: BUDGET,
        })
    } else if word == "checkparts" && are_four_names(first, second, third, last) {
        Some(Command::CheckParts {
            instance: first,
            groups_file: second,
            plan_file: third,
            certificate: last,
        })
    } else {
        None
    }
}

/// The command `plan` with the budget that a word is.
fn planning<'a>(
    instance: &'a str,
    plan_file: &'a str,
    certificate: &'a str,
    budget: &str,
) -> Option<Command<'a>>
    requires { plan_file.now ≢ certificate.now }
    ensures meaning { let command = option_map (plan instance.now plan_file.now certificate.now) (number_of budget.now) in
        option_map meaning result ≡ command }
    ensures apart { IfSome result (λ command. HasFilesApart (meaning command)) }
{
    match number_of(budget) {
        Some(budget) => Some(Command::Plan {
            instance,
            plan_file,
            certificate,
            budget,
        }),
        None => None,
    }
}

/// The command `explain` with the budget that a word is.
fn explaining<'a>(
    instance: &'a str,
    core: &'a str,
    certificate: &'a str,
    budget: &str,
) -> Option<Command<'a>>
    requires { core.now ≢ certificate.now }
    ensures meaning { let command = option_map (explain instance.now core.now certificate.now) (number_of budget.now) in
        option_map meaning result ≡ command }
    ensures apart { IfSome result (λ command. HasFilesApart (meaning command)) }
{
    match number_of(budget) {
        Some(budget) => Some(Command::Explain {
            instance,
            core,
            certificate,
            budget,
        }),
        None => None,
    }
}

/// The command that this word is before the names of three files, a word and a number.
fn with_number<'a>(
    word: &str,
    first: &'a str,
    second: &'a str,
    third: &'a str,
    between: &str,
    number: &str,
) -> Option<Command<'a>>
    ensures meaning { let words = word.now ∷ first.now ∷ second.now ∷ third.now ∷ between.now ∷ number.now ∷ [] in
        option_map meaning result ≡ command_of words }
    ensures apart { IfSome result (λ command. HasFilesApart (meaning command)) }
{
    if word == "plan" && between == "budget" && are_three_names(first, second, third) {
        planning(first, second, third, number)
    } else if word == "explain" && between == "budget" && are_three_names(first, second, third) {
        explaining(first, second, third, number)
    } else {
        None
    }
}

/// The command `parts` with the budget that a word is.
fn planning_parts<'a>(
    instance: &'a str,
    groups_file: &'a str,
    plan_file: &'a str,
    certificate: &'a str,
    budget: &str,
) -> Option<Command<'a>>
    requires { plan_file.now ≢ certificate.now }
    ensures meaning { let command = option_map (parts instance.now groups_file.now plan_file.now certificate.now) (number_of budget.now) in
        option_map meaning result ≡ command }
    ensures apart { IfSome result (λ command. HasFilesApart (meaning command)) }
{
    match number_of(budget) {
        Some(budget) => Some(Command::Parts {
            instance,
            groups_file,
            plan_file,
            certificate,
            budget,
        }),
        None => None,
    }
}

/// The command that this word is before the names of four files, a word and a number.
fn with_four_and_number<'a>(
    word: &str,
    first: &'a str,
    second: &'a str,
    third: &'a str,
    fourth: &'a str,
    between: &str,
    number: &str,
) -> Option<Command<'a>>
    ensures meaning { let words = word.now ∷ first.now ∷ second.now ∷ third.now ∷ fourth.now ∷ between.now ∷ number.now ∷ [] in
        option_map meaning result ≡ command_of words }
    ensures apart { IfSome result (λ command. HasFilesApart (meaning command)) }
{
    if word == "parts" && between == "budget" && are_four_names(first, second, third, fourth) {
        planning_parts(first, second, third, fourth, number)
    } else {
        None
    }
}

/// The command that these words are; `None` where they are in no command.
pub fn read_words(words: &[String]) -> Option<Command<'_>>
    ensures meaning { option_map meaning result ≡ asked words.now }
    ensures apart { IfSome result (λ command. HasFilesApart (meaning command)) }
{
    match words {
        [word, seed] => with_one(word.as_str(), seed.as_str()),
        [word, first, second] => with_two(word.as_str(), first.as_str(), second.as_str()),
        [word, first, second, third] => with_three(
            word.as_str(),
            first.as_str(),
            second.as_str(),
            third.as_str(),
        ),
        [word, first, second, third, last] => with_last(
            word.as_str(),
            first.as_str(),
            second.as_str(),
            third.as_str(),
            last.as_str(),
        ),
        [word, first, second, third, between, number] => with_number(
            word.as_str(),
            first.as_str(),
            second.as_str(),
            third.as_str(),
            between.as_str(),
            number.as_str(),
        ),
        [word, first, second, third, fourth, between, number] => with_four_and_number(
            word.as_str(),
            first.as_str(),
            second.as_str(),
            third.as_str(),
            fourth.as_str(),
            between.as_str(),
            number.as_str(),
        ),
        _ => None,
    }
}
