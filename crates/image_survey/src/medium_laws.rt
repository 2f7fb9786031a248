// Laws on a format: the functions do nothing, and their clauses are the laws.
ghost use Rattle.std.specs.Prelude.{◌≡◌, ℕ, List, length, take, slice_get, Some};
ghost use Rattle.base_model.specs.Bytes.{SameOutside};
ghost use Rattle.flash_model.specs.declared.geometry.Geometry.{Geometry};
ghost use Rattle.image_survey.specs.declared.format.FormatChange.{FormatChange};
ghost use Rattle.image_survey.specs.Headers.{IsMedium, medium_size};
ghost use Rattle.image_survey.specs.Formats.{format_changes, after, new_medium, LeftByFormat};

/// All changes of a format leave a medium of its geometry, whatever was there before: its flash is erased.
pub fn a_format_makes_a_medium()
    ensures made { (geometry : Geometry) (before : List ℕ) → length before ≡ medium_size geometry
        → after (format_changes geometry) before ≡ new_medium geometry }
    ensures medium { (geometry : Geometry) → IsMedium geometry (new_medium geometry) }
{}

/// Power lost in a change of a format, whatever bytes it leaves in the range of the change, leaves no medium; but in the first change the
/// medium that was there may be left, and from the erase of the first sector on one whose flash is erased.
pub fn a_cut_format_leaves_no_medium()
    ensures { (geometry : Geometry) (before left : List ℕ) (step : ℕ) (change : FormatChange)
        → length before ≡ medium_size geometry → slice_get (format_changes geometry) step ≡ Some change
        → SameOutside change.at change.len (after (take step (format_changes geometry)) before) left
        → LeftByFormat geometry before step left }
{}
