//! The head of a picture: the verdict, how many act, and the legend.
ghost use Rattle.std.specs.Prelude.{◌≡◌, ◌<◌, length, IfSome};
ghost use Rattle.std.specs.List.{All};
ghost use Rattle.picture.specs.Prelude.{choices_of, InRange, IsActionOf, IsPlanOf};

use crate::labels::kind_of_action;
use crate::shade::Shade;
use crate::sheet::{MARGIN, Sheet};
use crate::style::Style;
use crate::words::cut;
use base::Memory;
use catalogue::Problem;
use cluster::Kind;
use cluster::kinds::{KIND_COUNT, KINDS};
use judge::Broken;
use replay::broken_line;
use show::{Action, last_end};
use slices::Plan;
use slices::plan::cost;
use std::alloc::Global;

/// How many characters of a verdict fit.
const LONGEST: usize = 72;

/// How many actions there are of each kind.
type Counts = [usize; KIND_COUNT];

/// The verdict, in words.
pub(crate) fn verdict_words(
    alloc: Global,
    p: &Problem,
    plan: &Plan,
    answer: Option<Broken>,
) -> Result<String, Memory>
    requires plan { IsPlanOf p.now.given plan.now }
    requires rule { IfSome answer (λ b. InRange p.now.given b.rule) }
{
    match answer {
        Some(broken) => {
            let line = broken_line(alloc, p, broken)?;
            Ok(line.trim_end().to_string(alloc)?)
        }
        None => {
            let cost = cost(p, plan);
            Ok(format!(in alloc; "valid {cost}")?)
        }
    }
}

/// How many actions there are of each kind.
#[tactic(auto, using(crate::proofs::Placed::listed_number))]
fn counts(p: &Problem, plan: &Plan, actions: &[Action]) -> Counts
    requires plan { IsPlanOf p.now.given plan.now }
    requires actions { All (IsActionOf p.now.given (choices_of plan.now)) actions.now }
{
    let mut counts = [0; KIND_COUNT];
    for action in actions {
        if let Some(kind) = kind_of_action(p, plan, action) {
            let k = kind.number();
            counts[k] = usize::saturating_add(counts[k], 1);
        }
    }
    counts
}

/// A count and a word, in the plural where it is not one.
fn push_count(words: &mut String, count: usize, word: &str) -> Result<(), Memory> {
    write!(words, "{count} {word}")?;
    if count != 1 {
        words.push('s')?;
    }
    Ok(())
}

/// The actions by kind, the last end, the horizon, how many nodes and machines.
fn count_words(alloc: Global, p: &Problem, counts: Counts, last: u32) -> Result<String, Memory> {
    let mut words = String::new(alloc);
    for kind in KINDS {
        let count = counts[kind.number()];
        if count > 0 {
            let word = kind.word();
            let comma = if words.is_empty() { "" } else { ", " };
            write!(words, "{comma}{count} {word}")?;
        }
    }
    if words.is_empty() {
        words.push_str("nothing acts")?;
    }
    let horizon = p.horizon();
    write!(words, " · last ends at {last} · horizon {horizon} · ")?;
    push_count(&mut words, p.cluster().nodes().len(), "node")?;
    words.push_str(", ")?;
    push_count(&mut words, p.cluster().machines().len(), "machine")?;
    Ok(words)
}

/// One entry of the legend; where the next one begins.
fn key(sheet: &mut Sheet, x: u64, style: Style, words: &str) -> Result<u64, Memory> {
    sheet.rect(style, x, 58, 16, 11)?;
    let after = x.saturating_add(21);
    sheet.text(Style::Small, after, 68, words)?;
    Ok(after.saturating_add(words.len().min(60) as u64 * 6 + 14))
}

/// Whether an action of one of two kinds occurs.
fn occurs(counts: Counts, kinds: &[Kind]) -> bool {
    kinds.iter().any(|kind| counts[kind.number()] > 0)
}

/// The legend: what occurs alone.
fn legend(sheet: &mut Sheet, counts: Counts, is_off: bool, is_broken: bool) -> Result<(), Memory> {
    let mut x = MARGIN;
    if occurs(counts, &[Kind::Migrate]) {
        x = key(sheet, x, Style::Moves, "migrates (hollow: source)")?;
    }
    if occurs(counts, &[Kind::Boot, Kind::Resume]) {
        x = key(sheet, x, Style::Arrives, "boot, resume")?;
    }
    if occurs(counts, &[Kind::Shutdown, Kind::Suspend, Kind::Kill]) {
        x = key(sheet, x, Style::Leaves, "shutdown, suspend, kill")?;
    }
    if occurs(counts, &[Kind::Forge, Kind::Allocate]) {
        x = key(sheet, x, Style::Changes, "forge, allocate")?;
    }
    if occurs(counts, &[Kind::NodeBoot, Kind::NodeShutdown]) {
        x = key(sheet, x, Style::Power, "node boots, stops")?;
    }
    if is_off {
        x = key(sheet, x, Style::OffKey, "node off")?;
    }
    let middle = x.saturating_add(16);
    sheet.line(Style::Capacity, x, 63, middle, 63)?;
    sheet.text(Style::Small, x.saturating_add(21), 68, "capacity")?;
    if is_broken {
        key(sheet, x.saturating_add(90), Style::Over, "overload")?;
    }
    Ok(())
}

/// The shades of a heat map, and what each says.
const SHADES: [(Shade, &str); 6] = [
    (Shade::Faint, "< 25 %"),
    (Shade::Light, "50"),
    (Shade::Medium, "75"),
    (Shade::Strong, "90"),
    (Shade::Packed, "100 %"),
    (Shade::Overfull, "over"),
];

/// The legend of a heat map.
fn heat_legend(sheet: &mut Sheet, counts: Counts, is_off: bool) -> Result<(), Memory> {
    let mut x = MARGIN;
    for (shade, words) in SHADES {
        x = key(sheet, x, Style::Heat(shade), words)?;
    }
    if is_off {
        x = key(sheet, x, Style::Heat(Shade::Hatched), "off")?;
    }
    if occurs(counts, &[Kind::NodeBoot, Kind::NodeShutdown]) {
        x = key(sheet, x, Style::Heat(Shade::Edged), "boots, stops")?;
    }
    if occurs(counts, &[Kind::Migrate]) {
        x = key(sheet, x, Style::Moves, "migrates to")?;
    }
    if occurs(counts, &[Kind::Boot, Kind::Resume]) {
        x = key(sheet, x, Style::Arrives, "boot, resume")?;
    }
    if occurs(
        counts,
        &[Kind::Migrate, Kind::Shutdown, Kind::Suspend, Kind::Kill],
    ) {
        x = key(sheet, x, Style::Leaves, "leaves, ends")?;
    }
    if occurs(counts, &[Kind::Forge, Kind::Allocate]) {
        key(sheet, x, Style::Changes, "forge, allocate")?;
    }
    Ok(())
}

/// The verdict and the counts. How many actions there are of each kind.
fn verdict_and_counts(
    sheet: &mut Sheet,
    p: &Problem,
    plan: &Plan,
    actions: &[Action],
    answer: Option<Broken>,
) -> Result<Counts, Memory>
    requires plan { IsPlanOf p.now.given plan.now }
    requires actions { All (IsActionOf p.now.given (choices_of plan.now)) actions.now }
    requires rule { IfSome answer (λ b. InRange p.now.given b.rule) }
{
    let verdict = verdict_words(sheet.alloc, p, plan, answer)?;
    let verdict = cut(sheet.alloc, &verdict, LONGEST)?;
    let style = if answer.is_some() {
        Style::BadVerdict
    } else {
        Style::Verdict
    };
    sheet.words(style, MARGIN, 26, verdict)?;
    let counts = counts(p, plan, actions);
    let words = count_words(sheet.alloc, p, counts, last_end(actions))?;
    sheet.words(Style::Small, MARGIN, 46, words)?;
    Ok(counts)
}

/// Whether a node is off at some time.
fn is_some_off(p: &Problem, counts: Counts) -> bool {
    occurs(counts, &[Kind::NodeBoot, Kind::NodeShutdown])
        || p.cluster().nodes().iter().any(|n| !n.online)
}

/// The head of a picture in bands.
pub(crate) fn head(
    sheet: &mut Sheet,
    p: &Problem,
    plan: &Plan,
    actions: &[Action],
    answer: Option<Broken>,
) -> Result<(), Memory>
    requires plan { IsPlanOf p.now.given plan.now }
    requires actions { All (IsActionOf p.now.given (choices_of plan.now)) actions.now }
    requires rule { IfSome answer (λ b. InRange p.now.given b.rule) }
{
    let counts = verdict_and_counts(sheet, p, plan, actions, answer)?;
    legend(sheet, counts, is_some_off(p, counts), answer.is_some())
}

/// The head of a heat map.
pub(crate) fn heat_head(
    sheet: &mut Sheet,
    p: &Problem,
    plan: &Plan,
    actions: &[Action],
    answer: Option<Broken>,
) -> Result<(), Memory>
    requires plan { IsPlanOf p.now.given plan.now }
    requires actions { All (IsActionOf p.now.given (choices_of plan.now)) actions.now }
    requires rule { IfSome answer (λ b. InRange p.now.given b.rule) }
{
    let counts = verdict_and_counts(sheet, p, plan, actions, answer)?;
    heat_legend(sheet, counts, is_some_off(p, counts))
}
