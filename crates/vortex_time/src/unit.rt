//! Units of time.

ghost use Rattle.std.specs.Prelude.{◌≡◌, ◌↔◌, ◌≤◌, Some, IsOk, IfOk, IfErr, unsigned_abs};
ghost use Rattle.std.specs.Ordering.{on, nat_cmp, as_partial_cmp};
ghost use Rattle.std.specs.Cmp.{partial_order_from_own_ties};
ghost use Rattle.std.specs.Cmp.Rules.{comparing};
ghost use Rattle.std.proofs.Common.{rules};
ghost use Rattle.jiff.specs.Words.{IsOnly};
ghost use Rattle.vortex_time.specs.declared.error.TemporalError.TheVariants.{OutOfRange};
ghost use Rattle.vortex_time.specs.Units.{unit_tag, unit_of, unit_text, span_limit, span_unit};

use crate::error::TemporalError;
use jiff::{Span, ToSpan};
use std::cmp::Ordering;
use std::fmt;

/// A unit in which times are counted.
#[derive(Clone, Copy, Debug, PartialEq, Eq, Hash)]
pub enum TimeUnit {
    Nanoseconds = 0,
    Microseconds = 1,
    Milliseconds = 2,
    Seconds = 3,
    /// Days of 24 hours.
    Days = 4,
}

impl TimeUnit {
    /// The unit of this tag; BadUnit above 4.
    pub fn try_from_u8(tag: u8) -> Result<TimeUnit, TemporalError>
        ensures { result ≡ unit_of tag }
    {
        match tag {
            0 => Ok(TimeUnit::Nanoseconds),
            1 => Ok(TimeUnit::Microseconds),
            2 => Ok(TimeUnit::Milliseconds),
            3 => Ok(TimeUnit::Seconds),
            4 => Ok(TimeUnit::Days),
            _ => Err(TemporalError::BadUnit),
        }
    }

    /// The tag of the unit where it is written.
    pub fn tag(self) -> u8
        ensures { result ≡ unit_tag self }
    {
        self as u8
    }

    /// A span of that many units and nothing else; OutOfRange where there are too many for one.
    pub fn to_jiff_span(&self, v: i64) -> Result<Span, TemporalError>
        ensures succeeds { IsOk result ↔ (unsigned_abs v ≤ span_limit self.now) }
        ensures value { IfOk result (IsOnly (span_unit self.now) v) }
        ensures err { IfErr result (λ e. e ≡ OutOfRange) }
    {
        if v.unsigned_abs() > self.span_limit() {
            return Err(TemporalError::OutOfRange);
        }
        Ok(match self {
            TimeUnit::Nanoseconds => ToSpan::nanoseconds(v),
            TimeUnit::Microseconds => ToSpan::microseconds(v),
            TimeUnit::Milliseconds => ToSpan::milliseconds(v),
            TimeUnit::Seconds => ToSpan::seconds(v),
            TimeUnit::Days => ToSpan::days(v),
        })
    }

    // The most of the unit that a span takes.
    fn span_limit(self) -> u64
        ensures { result ≡ span_limit self }
    {
        match self {
            TimeUnit::Nanoseconds => 9_000_000_000_000_000_000,
            TimeUnit::Microseconds => 400_000_000_000_000_000,
            TimeUnit::Milliseconds => 400_000_000_000_000,
            TimeUnit::Seconds => 400_000_000_000,
            TimeUnit::Days => 5_000_000,
        }
    }
}

impl PartialOrd for TimeUnit {
    ghost partial_cmp = { as_partial_cmp (on unit_tag nat_cmp) };

    ghost laws = { partial_order_from_own_ties
        (Prim.search (comparing, rules)) (Prim.search (comparing, rules)) };

    fn partial_cmp(&self, other: &TimeUnit) -> Option<Ordering> {
        Some(self.cmp(other))
    }
}

impl Ord for TimeUnit {
    ghost cmp = { on unit_tag nat_cmp };

    ghost total = { Prim.search (comparing, rules) };

    ghost matches_partial_cmp = { Prim.search (comparing, rules) };

    ghost matches_eq = { Prim.search (comparing, rules) };

    /// The unit of the lesser tag is the lesser one: nanoseconds first, days last.
    fn cmp(&self, other: &TimeUnit) -> Ordering {
        self.tag().cmp(&other.tag())
    }
}

impl fmt::Display for TimeUnit {
    ghost output = { λ unit. Some (unit_text unit) };

    ghost styled_output = { λ unit _. Some (unit_text unit) };

    fn fmt<W: fmt::Write>(&self, f: &mut fmt::Formatter<W>) -> fmt::Result {
        match self {
            TimeUnit::Nanoseconds => f.write_str("ns"),
            TimeUnit::Microseconds => f.write_str("µs"),
            TimeUnit::Milliseconds => f.write_str("ms"),
            TimeUnit::Seconds => f.write_str("s"),
            TimeUnit::Days => f.write_str("days"),
        }
    }
}
