// The calls for C and Rust: each answers in numbers, 0 where it serves and else the number of refusal, and writes what else it tells to `answer` or `place`.
#![tactic(auto)]

ghost use Rattle.std.specs.Prelude.{◌≡◌, [], ◌∷◌};
ghost use Rattle.promises.specs.Calls.{ShuffleKeeps};
ghost use Rattle.promises.specs.Calls as promised;
ghost use Rattle.promises.specs.Small.{small, small_output, SmallKeeps};
ghost use Rattle.promises.specs.Forward.{forward, ForwardKeeps};
ghost use Rattle.promises.specs.Draws.{draws as drawn, draws_output};
ghost use Rattle.promises.specs.Sheets.{sheet_call, sheet_output};
ghost use Rattle.refusal.specs.Numbers.{answered};
ghost use Rattle.generator.specs.Outcomes.{count_answer, list_answer, index_answer};
ghost use Rattle.capi.specs.Words.{number_of, words_of, word_of};

use generator::Counted;
use refusal::Refusal;

// Count. The answer is N and the passes, or the place and 0.
#[unsafe(no_mangle)]
pub extern "C" fn wandukhai_count(
    text: &[u8],
    h: u64,
    cells: &mut [u64],
    answer: &mut [u64; 2],
) -> u64
    ensures value { result ≡ number_of (promised.count text.now h cells.old) }
    ensures answer_after { answer.new ≡ words_of (promised.count text.now h cells.old) }
    ensures cells_after { cells.new ≡ promised.count_cells text.now h cells.old }
{
    tell_counted(generator::count(text, h, cells), answer)
}

// Count from the front. The answer is N and the passes, or the place and 0.
#[unsafe(no_mangle)]
pub extern "C" fn wandukhai_count_forward(
    text: &[u8],
    h: u64,
    cells: &mut [u64],
    answer: &mut [u64; 2],
) -> u64
    ensures value { result ≡ number_of (forward text.now h cells.old) }
    ensures answer_after { answer.new ≡ words_of (forward text.now h cells.old) }
    ensures forward_keeps { ForwardKeeps text.now h cells.old cells.new }
{
    tell_counted(forward::count_forward(text, h, cells), answer)
}

// Scenarios. The place is 0 where served.
#[unsafe(no_mangle)]
pub extern "C" fn wandukhai_scenarios(
    text: &[u8],
    h: u64,
    list: &[u64],
    cells: &mut [u64],
    out: &mut [u8],
    place: &mut u64,
) -> u64
    ensures value { result ≡ number_of (promised.scenarios text.now h list.now cells.old out.old) }
    ensures place_after { place.new ≡ word_of (promised.scenarios text.now h list.now cells.old out.old) }
    ensures cells_after { cells.new ≡ promised.scenarios_cells text.now h list.now cells.old out.old }
    ensures out_after { out.new ≡ promised.written text.now h list.now cells.old out.old }
{
    tell_place(generator::scenarios(text, h, list, cells, out), place)
}

// Scenarios on the small bench. The place is 0 where served.
#[unsafe(no_mangle)]
pub extern "C" fn wandukhai_scenarios_small(
    text: &[u8],
    h: u64,
    list: &[u64],
    cells: &mut [u64],
    out: &mut [u8],
    place: &mut u64,
) -> u64
    ensures value { result ≡ number_of (small text.now h list.now cells.old out.old) }
    ensures place_after { place.new ≡ word_of (small text.now h list.now cells.old out.old) }
    ensures small_keeps { SmallKeeps text.now h list.now cells.old out.old cells.new }
    ensures out_after { out.new ≡ small_output text.now h list.now cells.old out.old }
{
    tell_place(small::scenarios_small(text, h, list, cells, out), place)
}

// Index. The answer is the index, or the place.
#[unsafe(no_mangle)]
pub extern "C" fn wandukhai_index(
    text: &[u8],
    sequence: &[u8],
    cells: &mut [u64],
    answer: &mut u64,
) -> u64
    ensures value { result ≡ number_of (promised.index text.now sequence.now cells.old) }
    ensures answer_after { answer.new ≡ word_of (promised.index text.now sequence.now cells.old) }
    ensures cells_after { cells.new ≡ promised.index_cells text.now sequence.now cells.old }
{
    tell_word(generator::index(text, sequence, cells), answer)
}

// Shuffle. The place is 0 where served.
#[unsafe(no_mangle)]
pub extern "C" fn wandukhai_shuffle(
    n: u64,
    draws: &[u64],
    scratch: &mut [u64],
    out: &mut [u64],
    place: &mut u64,
) -> u64
    ensures value { result ≡ number_of (promised.shuffle n draws.now scratch.old out.old) }
    ensures place_after { place.new ≡ word_of (promised.shuffle n draws.now scratch.old out.old) }
    ensures out_after { out.new ≡ promised.shuffled n draws.now scratch.old out.old }
    ensures shuffle_keeps { ShuffleKeeps n draws.now scratch.old out.old scratch.new }
{
    tell_place(generator::shuffle_indices(n, draws, scratch, out), place)
}

// Draws from a seed. The place is 0 where served.
#[unsafe(no_mangle)]
pub extern "C" fn wandukhai_draws(
    n: u64,
    z: u64,
    seed: u64,
    limit: u8,
    out: &mut [u64],
    place: &mut u64,
) -> u64
    ensures value { result ≡ number_of (drawn n z seed limit out.old) }
    ensures place_after { place.new ≡ word_of (drawn n z seed limit out.old) }
    ensures out_after { out.new ≡ draws_output n z seed limit out.old }
{
    tell_place(draws::draws(n, z, seed, limit, out), place)
}

// A sheet of bench commands. The answer is its length and the events that it runs, or the place and 0.
#[unsafe(no_mangle)]
pub extern "C" fn wandukhai_sheet(
    scenarios: &[u8],
    m: u64,
    h: u64,
    g: u64,
    out: &mut [u8],
    answer: &mut [u64; 2],
) -> u64
    ensures value { result ≡ number_of (sheet_call m h g scenarios.now out.old) }
    ensures answer_after { answer.new ≡ words_of (sheet_call m h g scenarios.now out.old) }
    ensures out_after { out.new ≡ sheet_output m h g scenarios.now out.old }
{
    let sheet = sheets::sheet(scenarios, m, h, g, out);
    tell_words(sheet.map(|s| (s.length, s.total)), answer)
}

// Tells the answer of a call that counts: N and the passes.
fn tell_counted(counted: Result<Counted, Refusal>, answer: &mut [u64; 2]) -> u64
    ensures value { result ≡ number_of (count_answer counted) }
    ensures answer_after { answer.new ≡ words_of (count_answer counted) }
{
    tell_words(counted.map(|c| (c.count, c.passes)), answer)
}

// Tells the answer of a call that tells nothing where it serves.
fn tell_place(answer: Result<(), Refusal>, place: &mut u64) -> u64
    ensures value { result ≡ number_of (list_answer answer) }
    ensures place_after { place.new ≡ word_of (list_answer answer) }
{
    tell_word(answer.map(|()| 0), place)
}

// Tells an answer of two words: its number, and the words, or the place and 0.
fn tell_words(answer: Result<(u64, u64), Refusal>, words: &mut [u64; 2]) -> u64
    ensures value { result ≡ number_of (answered (λ told. told.0 ∷ told.1 ∷ []) answer) }
    ensures words_after { words.new ≡ words_of (answered (λ told. told.0 ∷ told.1 ∷ []) answer) }
{
    match answer {
        Ok((first, second)) => {
            *words = [first, second];
            0
        }
        Err(refusal) => {
            *words = [refusal.place(), 0];
            refusal.number()
        }
    }
}

// Tells an answer of one word: its number, and the word, or the place. One function for this and `tell_words` would be longer: what is told of a place differs,
// so it would take a closure, and a clause for it.
fn tell_word(answer: Result<u64, Refusal>, word: &mut u64) -> u64
    ensures value { result ≡ number_of (index_answer answer) }
    ensures word_after { word.new ≡ word_of (index_answer answer) }
{
    match answer {
        Ok(told) => {
            *word = told;
            0
        }
        Err(refusal) => {
            *word = refusal.place();
            refusal.number()
        }
    }
}
