// A lot taken out of a file.
ghost use Rattle.std.specs.Prelude.{◌≡◌};
ghost use Rattle.session.specs.Limits.{most_lots, most_lot_documents};
ghost use Rattle.lot_file.specs.Answers.{answer_number};
ghost use Rattle.lot_file.specs.Reading.{absent_refusal};
ghost use Rattle.lot_file.specs.TakingOut.{taken_out};

use crate::answers::Answer;
use crate::asked::placed;
use crate::moving::close;

pub fn take_out(file: &mut [u8], number: u32) -> Answer
    ensures answer { answer_number result ≡ absent_refusal most_lots most_lot_documents file.old number }
    ensures after { file.new ≡ taken_out most_lots most_lot_documents file.old number }
{
    let lot = placed(file, number as usize)?;
    close(file, lot.place, lot.used, lot.end);
    Ok(())
}
