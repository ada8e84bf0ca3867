// Rows that several calls on names share.
ghost use Rattle.std.specs.Prelude.{◌≡◌, ◌≤◌, true, IfOk, IfErr};
ghost use Rattle.name_spec.specs.Names as spec;
ghost use Rattle.threshold.specs.Threshold as limits;
ghost use Rattle.name_texts.specs.Forms.{form_of};
ghost use Rattle.names.specs.Head.{Denied, text_row};

use answer::Refusal;
use name_texts::checks::id_right;
use name_texts::form::text_form;
use threshold::threshold_right;

// Refuses a threshold outside its limits, and then bytes that are no directory ID. Rows 18, 2.
pub fn look_at(threshold: u8, dir_id: &[u8]) -> Result<(), Refusal>
    ensures allowed { IfOk result (λ _. (limits.threshold_right threshold ≡ true) × (spec.id_right dir_id.now ≡ true)) }
    ensures denied { IfErr result (λ r. Denied threshold dir_id.now r) }
{
    if !threshold_right(threshold as u32) {
        return Err(Refusal::Threshold);
    }
    if !id_right(dir_id) {
        return Err(Refusal::DirectoryId);
    }
    Ok(())
}

// Kept: no From<BrokenAt> for Refusal: the crates `encoding` and `answer`, whose types they are, do not know one another.
// The length of the name in a text of at most `most` characters, or row 5 with the place where the text is broken.
pub fn name_in(text: &[u8], most: usize) -> Result<usize, Refusal>
    requires { 4 ≤ most }
    ensures { result ≡ text_row (form_of most text.now) }
{
    text_form(text, most).map_err(|broken| Refusal::Text(broken.0 as u64))
}
