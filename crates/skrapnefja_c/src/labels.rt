// The vault's label.
ghost use Rattle.std.specs.Prelude.{◌≡◌};
ghost use Rattle.label_spec.specs.Label.{open_label};
ghost use Rattle.skrapnefja.specs.Results.{label_result, label_result_of};

// Opens a vault's label with its raw key: tells its combo, 1 for SIV_GCM or 2 for SIV_CTRMAC, and its threshold; or the place of a broken segment.
#[unsafe(no_mangle)]
pub extern "C" fn skrapnefja_open_label(
    raw_key: &[u8],
    label: &[u8],
    combo: &mut u32,
    threshold: &mut u32,
    at: &mut u64,
) -> u32
    ensures { label_result result combo.new threshold.new at.new ≡ label_result_of (open_label raw_key.now label.now) combo.old threshold.old at.old }
{
    skrapnefja::labels::skrapnefja_open_label(raw_key, label, combo, threshold, at)
}
