//! Laws of the metadata of types of times, and of the moments of numbers.

ghost use Rattle.std.specs.Prelude.{◌≡◌, ◌∷◌, [], ℕ, pos, negsuc, List, true, codes, Some, None, Ok, Err};
ghost use Rattle.jiff.specs.Types.{TimeZone};
ghost use Rattle.vortex_time.specs.Metadata.{Metadata, time, date, timestamp, metadata_of};
ghost use Rattle.vortex_time.specs.Metadata.{written_metadata, metadata_bytes, id_of, has_text, as_read};
ghost use Rattle.vortex_time.specs.Moments.{day, civil, moment_of, civil_day, is_day, is_instant};
ghost use Rattle.vortex_time.specs.Units.{nanos_in};
ghost use Rattle.vortex_time.specs.declared.error.TemporalError.TheVariants as error;
ghost use Rattle.vortex_time.specs.declared.unit.TimeUnit.TheVariants as unit;

/// What is written for metadata is read as it was, but that a zone of no bytes is read as no zone.
/// This does nothing when the program runs.
pub fn written_metadata_is_read()
    ensures { (m : Metadata) (bytes : List ℕ) → has_text m ≡ true → written_metadata m ≡ Ok bytes
        → metadata_of (id_of m) (Some bytes) ≡ Ok (as_read m) }
{}

/// Worked metadata and moments: the ids; the bytes of a zone; no zone, with a byte behind it; an
/// instant before 1970 in its day; milliseconds of a date, which are dropped toward zero; the last
/// date, date with a time and instant; which refusal comes first; and a zone that is handed in where
/// none is named, which is ignored. This does nothing when the program runs.
pub fn moments_are_worked()
    ensures time_id { id_of (time unit.Seconds) ≡ codes "vortex.time" }
    ensures date_id { id_of (date unit.Days) ≡ codes "vortex.date" }
    ensures zone { metadata_bytes (timestamp unit.Milliseconds (Some (codes "UTC")))
        ≡ 2 ∷ 3 ∷ 0 ∷ 85 ∷ 84 ∷ 67 ∷ [] }
    ensures no_zone { metadata_of (codes "vortex.timestamp") (Some (3 ∷ 0 ∷ 0 ∷ 9 ∷ []))
        ≡ Ok (timestamp unit.Seconds None) }
    ensures past { civil_day (negsuc 0) ≡ negsuc 0 }
    ensures whole { moment_of (date unit.Milliseconds) (negsuc 0) None ≡ Ok (day (pos 0)) }
    ensures last { moment_of (date unit.Days) (pos 2_932_897) None ≡ Err error.OutOfRange }
    ensures last_civil { is_day (civil_day (pos 253_402_300_799_999_999_999)) ≡ true }
    ensures last_instant { is_instant (pos 253_402_207_200_999_999_999) ≡ true }
    ensures day_length { nanos_in unit.Days ≡ 86_400_000_000_000 }
    ensures time_unit { moment_of (time unit.Days) (pos 1) None ≡ Err error.UnitNotAllowed }
    ensures date_unit { moment_of (date unit.Microseconds) (pos 2_932_897) None
        ≡ Err error.UnitNotAllowed }
    ensures stamp_unit { moment_of (timestamp unit.Days None) (pos 2_932_897) None
        ≡ Err error.UnitNotAllowed }
    ensures zone_first { moment_of (timestamp unit.Seconds (Some [])) (pos 253_402_207_201) None
        ≡ Err error.ZoneNeeded }
    ensures ignored { (handed : TimeZone)
        → moment_of (timestamp unit.Seconds None) (pos 0) (Some handed) ≡ Ok (civil (pos 0)) }
{}
