// Reading a rig's text: its record, or the first of the refusals 1 to 6 and 16 to 18. One pass over the text, line by line; the tables are filled in place.
#![tactic(auto)]

ghost use Rattle.std.specs.Prelude.{◌≡◌, IfOk};
ghost use Rattle.promises.specs.Reading as promised;
ghost use Rattle.reader.specs.Reading.{answer_of, record_of};

use refusal::{Fault, Refusal};
use rig::{NO_MOVE, Rig};
use taking::{Draft, Sizes};

// Reads a text of any length.
pub fn read(text: &[u8]) -> Result<Rig, Refusal>
    ensures value { answer_of result ≡ promised.reading text.now }
    ensures rig_value { IfOk result (λ r. r ≡ record_of text.now) }
{
    if 65535 < text.len() {
        return Err(Refusal::LongText);
    }
    let mut draft = Draft {
        moves: [NO_MOVE; 2048],
        stops: [0; 128],
        given: [0; 64],
        counts: [0; 4],
        starts: [0; 4],
        order: rig::lower_first(),
        sizes: Sizes {
            events: 0,
            monitors: 0,
            latest: None,
            joint: 1,
        },
    };
    // Lines are split off one by one and counted: the library's `split` gives an unended last line as any other.
    let mut line = 1;
    let mut rest = text;
    while !rest.is_empty() {
        let Some((bytes, later)) = decoding::split_at_byte(rest, b'\n') else {
            return Err(Refusal::BadLine(Fault::NoForm, line)); // the last line is not ended
        };
        let form = decoding::decode(bytes, &mut draft.order);
        draft
            .take_line(line, form)
            .map_err(|fault| Refusal::BadLine(fault, line))?;
        line += 1;
        rest = later;
    }
    if draft.sizes.monitors == 0 {
        return Err(Refusal::BadLine(Fault::Misplaced, line));
    }
    Ok(Rig {
        moves: draft.moves,
        stops: draft.stops,
        counts: draft.counts,
        starts: draft.starts,
        order: draft.order,
        monitors: draft.sizes.monitors,
        events: draft.sizes.events,
    })
}
