//! How figures are printed.
use std::io;

/// Prints `measured` divided by `by` with two decimals, rounded down, as `advance, one thread: 9.12
/// ns a step`. A `by` of 0 counts as 1. A `measured` of `None` prints a line that says that the
/// measurement failed.
pub fn show(
    rt: &impl Print,
    what: &str,
    how: &str,
    measured: Option<u64>,
    by: u64,
    unit: &str,
) -> io::Result<()> {
    let Some(measured) = measured else {
        return println!(rt; "{what}, {how}: not measured, since a step of it failed");
    };
    let hundredths = u128::from(measured) * 100 / u128::from(by.max(1));
    let units = hundredths / 100;
    let rest = hundredths % 100;
    println!(rt; "{what}, {how}: {units}.{rest:02} {unit}")
}

/// Prints `measured` as a multiple of `beside`.
pub fn show_ratio(
    rt: &impl Print,
    what: &str,
    how: &str,
    measured: Option<u64>,
    beside: Option<u64>,
    unit: &str,
) -> io::Result<()> {
    let (measured, by) = match beside {
        Some(beside) => (measured, beside),
        None => (None, 1),
    };
    show(rt, what, how, measured, by, unit)
}
