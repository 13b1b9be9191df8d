// The table of all rules, one line each.
use crate::contest::Contest;
use crate::tally::{Tally, tenths};
use std::alloc::{AllocError, Global};

// A number of tenths, or a dash.
fn decimal(heap: Global, number: Option<u64>) -> Result<String, AllocError> {
    match number {
        Some(n) => format!(in heap; "{}.{}", n / 10, n % 10),
        None => String::from_str(heap, "-"),
    }
}

pub fn table(heap: Global, contests: &[Contest]) -> Result<String, AllocError> {
    let mut lines = format!(in heap;
        "{:<12}{:>12}{:>16}{:>18}{:>12}",
        "rule", "carried", "for each shelf", "worst difference", "times ours"
    )?;
    if let Some(first) = contests.first() {
        line(heap, &mut lines, "ours", &first.ours, first.ours.carried)?;
    }
    for contest in contests {
        line(
            heap,
            &mut lines,
            contest.rule,
            &contest.theirs,
            contest.ours.carried,
        )?;
    }
    Ok(lines)
}

fn line(
    heap: Global,
    lines: &mut String,
    name: &str,
    tally: &Tally,
    ours: u64,
) -> Result<(), AllocError> {
    let each = decimal(heap, tally.each_shelf())?;
    let times = decimal(heap, tenths(tally.carried, ours))?;
    write!(
        lines,
        "\n{name:<12}{:>12}{each:>16}{:>18}{times:>12}",
        tally.carried, tally.worst
    )
}
