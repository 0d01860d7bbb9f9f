// The C entries (include/sst.h), each a function of firmware under its name and with its clauses, word for word: a crate is a library or a static library.
#![tactic(auto)]

ghost use Rattle.std.specs.Prelude.{◌≡◌};
ghost use Rattle.machine.specs.Bytes.{words_of, table_of, count};
ghost use Rattle.machine.specs.Call.{whole};
ghost use Rattle.machine.specs.Form as form;
ghost use Rattle.loading.specs.File as files;
ghost use Rattle.rights.specs.Rights as rights;
ghost use Rattle.processor.specs.Process.{process, lent_bytes};
ghost use Rattle.filtering.specs.Filter as filtering;
ghost use Rattle.screen.specs.Screen.{screen_number, fresh_bytes, refill_number, refill_bytes, turn_bytes};
ghost use Rattle.firmware.specs.Filing.{hands};
ghost use Rattle.firmware.specs.Turning.{leaves};
ghost use Rattle.figure.specs.Told.{figure_of};
ghost use Rattle.firmware.specs.Processing.{numbers_of, tells};
ghost use Rattle.firmware.specs.Entries.{phase_number, reason_or_none, location_or0, read_or0, used_or0, allowance_or0, fresh_number, fresh_in, handing, gives};

// A fresh walk with a repair allowance, in a buffer of the right length.
#[unsafe(no_mangle)]
pub extern "C" fn sst_fresh(walk: &mut [u8], allowance: u16) -> u16
    ensures { (result ≡ fresh_number walk.old) × (walk.new ≡ fresh_in allowance walk.old) }
{
    firmware::sst_fresh(walk, allowance)
}

// A whole call, on bytes alone.
#[unsafe(no_mangle)]
pub extern "C" fn sst_whole(
    table: &[u8],
    tokens: &[u8],
    answers: &[u8],
    budget: u64,
    walk: &mut [u8],
    events: &mut [u8],
    written: &mut u64,
    steps: &mut u64,
) -> u16
    ensures { gives result walk.new events.new written.new steps.new ≡ form.call_bytes table.now tokens.now (whole (words_of answers.now)) budget walk.old events.old }
{
    firmware::sst_whole(table, tokens, answers, budget, walk, events, written, steps)
}

// A paused call, on bytes alone.
#[unsafe(no_mangle)]
pub extern "C" fn sst_paused(
    table: &[u8],
    tokens: &[u8],
    given: u16,
    answer: u16,
    budget: u64,
    walk: &mut [u8],
    events: &mut [u8],
    written: &mut u64,
    steps: &mut u64,
) -> u16
    ensures { gives result walk.new events.new written.new steps.new ≡ form.call_bytes table.now tokens.now (handing given answer) budget walk.old events.old }
{
    firmware::sst_paused(
        table, tokens, given, answer, budget, walk, events, written, steps,
    )
}

// Both books begin.
#[unsafe(no_mangle)]
pub extern "C" fn sst_screen_fresh(screen: &mut [u8], allowance_0: u16, allowance_1: u16) -> u16
    ensures { (result ≡ screen_number screen.old) × (screen.new ≡ fresh_bytes allowance_0 allowance_1 screen.old) }
{
    firmware::sst_screen_fresh(screen, allowance_0, allowance_1)
}

// The steps left to a book are set anew.
#[unsafe(no_mangle)]
pub extern "C" fn sst_refill(screen: &mut [u8], book: u16, left: u64) -> u16
    ensures { (result ≡ refill_number book screen.old) × (screen.new ≡ refill_bytes book left screen.old) }
{
    firmware::sst_refill(screen, book, left)
}

// A whole turn: a call of one book with the steps left to it, which fall by those done.
#[unsafe(no_mangle)]
pub extern "C" fn sst_turn_whole(
    table: &[u8],
    tokens: &[u8],
    answers: &[u8],
    book: u16,
    screen: &mut [u8],
    events: &mut [u8],
    written: &mut u64,
    steps: &mut u64,
) -> u16
    ensures { leaves result screen.new events.new written.new steps.new ≡ turn_bytes table.now tokens.now (whole (words_of answers.now)) book screen.old events.old }
{
    firmware::sst_turn_whole(table, tokens, answers, book, screen, events, written, steps)
}

// A paused turn.
#[unsafe(no_mangle)]
pub extern "C" fn sst_turn_paused(
    table: &[u8],
    tokens: &[u8],
    given: u16,
    answer: u16,
    book: u16,
    screen: &mut [u8],
    events: &mut [u8],
    written: &mut u64,
    steps: &mut u64,
) -> u16
    ensures { leaves result screen.new events.new written.new steps.new ≡ turn_bytes table.now tokens.now (handing given answer) book screen.old events.old }
{
    firmware::sst_turn_paused(
        table, tokens, given, answer, book, screen, events, written, steps,
    )
}

#[unsafe(no_mangle)]
pub extern "C" fn sst_phase(walk: &[u8]) -> u16
    ensures { result ≡ phase_number (form.walk_of walk.now) }
{
    firmware::sst_phase(walk)
}

#[unsafe(no_mangle)]
pub extern "C" fn sst_reason(walk: &[u8]) -> u16
    ensures { result ≡ reason_or_none (form.walk_of walk.now) }
{
    firmware::sst_reason(walk)
}

#[unsafe(no_mangle)]
pub extern "C" fn sst_location(walk: &[u8]) -> u16
    ensures { result ≡ location_or0 (form.walk_of walk.now) }
{
    firmware::sst_location(walk)
}

#[unsafe(no_mangle)]
pub extern "C" fn sst_read(walk: &[u8]) -> u64
    ensures { result ≡ read_or0 (form.walk_of walk.now) }
{
    firmware::sst_read(walk)
}

#[unsafe(no_mangle)]
pub extern "C" fn sst_used(walk: &[u8]) -> u64
    ensures { result ≡ used_or0 (form.walk_of walk.now) }
{
    firmware::sst_used(walk)
}

#[unsafe(no_mangle)]
pub extern "C" fn sst_allowance(walk: &[u8]) -> u16
    ensures { result ≡ allowance_or0 (form.walk_of walk.now) }
{
    firmware::sst_allowance(walk)
}

// The processor, on bytes and numbers alone.
#[unsafe(no_mangle)]
pub extern "C" fn sst_process(
    text: &[u8],
    table: &mut [u8],
    start: &mut u64,
    len: &mut u64,
    words: &mut u64,
    finishing: &mut u64,
    figure: &mut u64,
    check: &mut u64,
) -> u16
    ensures check_after { tells result start.new len.new words.new finishing.new figure.new check.new ≡ numbers_of (process text.now (count table.old)) (figure_of text.now (count table.old)) }
    ensures lent { table.new ≡ lent_bytes (process text.now (count table.old)) table.old }
{
    firmware::sst_process(text, table, start, len, words, finishing, figure, check)
}

// A file's table is put into the lent one, if the loader takes it.
#[unsafe(no_mangle)]
pub extern "C" fn sst_load(file: &[u8], table: &mut [u8], words: &mut u64, verdict: &mut u64) -> u16
    ensures verdict_after { hands result words.new verdict.new ≡ files.numbers_of (files.load file.now (count table.old)) }
    ensures lent { table.new ≡ files.lent_bytes (files.load file.now (count table.old)) table.old }
{
    firmware::sst_load(file, table, words, verdict)
}

// The file of a table and a verdict is put into the lent buffer, if the loader would take it.
#[unsafe(no_mangle)]
pub extern "C" fn sst_write_file(
    table: &[u8],
    verdict: u64,
    file: &mut [u8],
    words: &mut u64,
) -> u16
    ensures value { result ≡ (files.numbers_of (files.store (words_of table.now) verdict (count file.old))).number }
    ensures words { words.new ≡ (files.numbers_of (files.store (words_of table.now) verdict (count file.old))).words }
    ensures lent { file.new ≡ files.lent_bytes (files.store (words_of table.now) verdict (count file.old)) file.old }
{
    firmware::sst_write_file(table, verdict, file, words)
}

// Whether a table is admitted for the publisher who holds the set.
#[unsafe(no_mangle)]
pub extern "C" fn sst_admit(table: &[u8], set: &[u8], location: &mut u64) -> u16
    ensures { rights.says result location.new ≡ rights.admit (table_of table.now) set.now }
{
    firmware::sst_admit(table, set, location)
}

// A table file is loaded and its table admitted, on bytes and numbers alone.
#[unsafe(no_mangle)]
pub extern "C" fn sst_load_admitted(
    file: &[u8],
    set: &[u8],
    table: &mut [u8],
    words: &mut u64,
    verdict: &mut u64,
    location: &mut u64,
) -> u16
    ensures location_after { rights.tells result words.new verdict.new location.new ≡ rights.admit_loaded set.now (files.load file.now (count table.old)) }
    ensures lent { table.new ≡ files.lent_bytes (files.load file.now (count table.old)) table.old }
{
    firmware::sst_load_admitted(file, set, table, words, verdict, location)
}

// The character filter, on bytes and numbers alone.
#[unsafe(no_mangle)]
pub extern "C" fn sst_filter(
    filter: &[u8],
    text: &[u8],
    tokens: &mut [u8],
    at: &mut u64,
    written: &mut u64,
) -> u16
    ensures written_after { filtering.tells result at.new written.new ≡ filtering.numbers_of (filtering.filter filter.now text.now (count tokens.old)) }
    ensures lent { tokens.new ≡ filtering.buffer_after (filtering.filter filter.now text.now (count tokens.old)) tokens.old }
{
    firmware::sst_filter(filter, text, tokens, at, written)
}
