//! Times, dates and timestamps as values of `jiff`.

ghost use Rattle.std.specs.Prelude.{Some};
ghost use Rattle.vortex_time.specs.Jiff.{jiff_text, civil_text};

use jiff::Zoned;
use jiff::civil::{Date, DateTime, Time};
use std::fmt;

/// A time, a date or a timestamp.
#[derive(Clone, Copy, Debug)]
pub enum TemporalJiff<'a> {
    /// A time of day.
    Time(Time),
    /// A date.
    Date(Date),
    /// A date with a time, in no zone.
    Unzoned(DateTime),
    /// An instant in a zone.
    Zoned(Zoned<'a>),
}

/// A time, a date or a timestamp in no zone.
#[derive(Clone, Copy, Debug, PartialEq, Eq)]
pub enum CivilJiff {
    /// A time of day.
    Time(Time),
    /// A date.
    Date(Date),
    /// A date with a time.
    Unzoned(DateTime),
}

impl fmt::Display for TemporalJiff<'_> {
    ghost output = { λ value. Some (jiff_text value) };

    fn fmt<W: fmt::Write>(&self, f: &mut fmt::Formatter<W>) -> fmt::Result {
        match self {
            TemporalJiff::Time(time) => fmt::Display::fmt(time, f),
            TemporalJiff::Date(date) => fmt::Display::fmt(date, f),
            TemporalJiff::Unzoned(both) => fmt::Display::fmt(both, f),
            TemporalJiff::Zoned(zoned) => fmt::Display::fmt(zoned, f),
        }
    }
}

impl fmt::Display for CivilJiff {
    ghost output = { λ value. Some (civil_text value) };

    fn fmt<W: fmt::Write>(&self, f: &mut fmt::Formatter<W>) -> fmt::Result {
        match self {
            CivilJiff::Time(time) => fmt::Display::fmt(time, f),
            CivilJiff::Date(date) => fmt::Display::fmt(date, f),
            CivilJiff::Unzoned(both) => fmt::Display::fmt(both, f),
        }
    }
}
