//! Rates of lines, read from the text of a site's file.
use crate::faults::FileFault;
use crate::rate::Rate;
use crate::section::Section;

/// Moments of a rate in a second: a moment is a microsecond.
const MOMENTS: u32 = 1_000_000;

/// Ten lines a second, a hundred at once.
pub(crate) const USUAL: Rate = Rate {
    period: MOMENTS / 10,
    burst: 100,
};

/// How many lines a customer may send in a second, and how many at once.
pub(crate) fn rate_in(section: &Section<'_>) -> Result<Rate, FileFault> {
    let rate = section.count("rate", 1, MOMENTS)?.unwrap_or(10);
    let burst = section.count("burst", 1, 65_535)?.unwrap_or(100);
    Ok(Rate {
        period: MOMENTS.div_ceil(rate),
        burst: burst as u16,
    })
}
