//! What metadata and numbers of times are, and in which order they are refused.

ghost use Rattle.std.specs.Prelude.{◌≡◌, ◌∷◌, [], None, Err, Some, codes, pos};
ghost use Rattle.jiff.specs.Types.{Millisecond};
ghost use Rattle.vortex_time.specs.ErrorNumber.{error_number};
ghost use Rattle.vortex_time.specs.Metadata.{metadata_of};
ghost use Rattle.vortex_time.specs.Moments.{unzoned_of};
ghost use Rattle.vortex_time.specs.Units.{span_limit, span_unit, unit_tag};
ghost use Rattle.vortex_time.specs.declared.error.TemporalError.TheVariants as error;
ghost use Rattle.vortex_time.specs.declared.unit.TimeUnit.TheVariants as unit;

/// The first and the last tag, what a span takes of milliseconds and what it counts, and the numbers
/// of the last errors. It does nothing when the program runs.
pub fn units_are_worked()
    ensures first_tag { unit_tag unit.Nanoseconds ≡ 0 }
    ensures last_tag { unit_tag unit.Days ≡ 4 }
    ensures span { span_limit unit.Milliseconds ≡ 400_000_000_000_000 }
    ensures counted { span_unit unit.Milliseconds ≡ Millisecond }
    ensures bad_json { error_number error.BadJson ≡ 10 }
    ensures memory { error_number error.OutOfMemory ≡ 11 }
{}

/// Which refusal of metadata comes first: none at all before another id, another id before a unit, a
/// unit before a zone, a zone that is cut before one that is no UTF-8, and a zone before the range.
/// It does nothing when the program runs.
pub fn refusals_are_worked()
    ensures missing { metadata_of (codes "vortex.x") None ≡ Err error.MissingMetadata }
    ensures other_id { metadata_of (codes "vortex.x") (Some (9 ∷ [])) ≡ Err error.NotTemporal }
    ensures no_unit { metadata_of (codes "vortex.date") (Some []) ≡ Err error.ShortMetadata }
    ensures unit_first { metadata_of (codes "vortex.timestamp") (Some (5 ∷ 1 ∷ 0 ∷ 255 ∷ []))
        ≡ Err error.BadUnit }
    ensures short_zone { metadata_of (codes "vortex.timestamp") (Some (3 ∷ 0 ∷ 1 ∷ 97 ∷ []))
        ≡ Err error.ShortMetadata }
    ensures bad_zone { metadata_of (codes "vortex.timestamp") (Some (3 ∷ 1 ∷ 0 ∷ 255 ∷ []))
        ≡ Err error.BadZone }
    ensures zone_first { unzoned_of (codes "vortex.timestamp") (Some (3 ∷ 1 ∷ 0 ∷ 97 ∷ []))
        (pos 253_402_300_800) ≡ Err error.ZoneNeeded }
    ensures out_of_range { unzoned_of (codes "vortex.timestamp") (Some (3 ∷ 0 ∷ 0 ∷ []))
        (pos 253_402_300_800) ≡ Err error.OutOfRange }
{}
