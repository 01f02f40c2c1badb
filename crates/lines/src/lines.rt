ghost use Rattle.std.specs.Prelude.{◌≡◌, [], ◌∷◌, ◌+◌, ◌*◌, ◌≤◌, ◌<◌, length, replicate};
ghost use Rattle.number.specs.Number.{overwritten};
ghost use Rattle.schedule.specs.Format.{words_in};
ghost use Rattle.schedule.specs.Run.{outcomes_from_on, summary_from_on};
ghost use Rattle.lines.specs.Appends.{Appends};
ghost use Rattle.lines.specs.FromTrace.{lines_from_trace, three_numbers};
ghost use Rattle.lines.specs.Lines.{last_line, last_line_on, lines_of, margin_word, refusal_line, run_lines, sizes_line, totals_words};
ghost use Rattle.lines.specs.Text.{joined, line};
ghost use Rattle.terms.specs.Refusal.{place_of};

use crate::text::{TEXT_ROOM, Text};
use number::word_at;
use schedule::{
    LONGEST_TRACE, Queue, Summary, kind_part, obey_entries_on, operand_part, read, refusal_of,
};
use terms::{Refusal, Sizes, Tally};

// The byte between two numbers or words, and the one behind a line.
const SPACE: u8 = b' ';

const NEWLINE: u8 = b'\n';

// Puts the word that ends the first line: whether the margin in use is enough.
fn put_margin_word(text: &mut Text, sizes: Sizes)
    requires { text.old.length + 7 ≤ 135311 }
    ensures { Appends 7 (line (margin_word sizes ∷ [])) text.old text.new }
{
    if sizes.enough_margin() {
        text.put_bytes(b"enough\n");
    } else {
        text.put_bytes(b"short\n");
    }
}

// Puts the first line.
fn put_sizes(text: &mut Text, sizes: Sizes)
    requires { text.old.length + 73 ≤ 135311 }
    ensures { Appends 73 (sizes_line sizes) text.old text.new }
{
    text.put_number(sizes.slots, SPACE);
    text.put_number(sizes.buffer, SPACE);
    text.put_number(sizes.spacing, SPACE);
    text.put_number(sizes.margin_in_use(), SPACE);
    text.put_number(sizes.thieves, SPACE);
    text.put_number(sizes.start, SPACE);
    put_margin_word(text, sizes);
}

// Puts the line of an entry, by its number and what a trace has of it.
fn put_entry(text: &mut Text, entry: u32, outcome: u8, value: u32)
    requires { text.old.length + 33 ≤ 135311 }
    ensures { Appends 33 (three_numbers entry outcome value) text.old text.new }
{
    text.put_number(entry, SPACE);
    text.put_number(outcome as u32, SPACE);
    text.put_number(value, NEWLINE);
}

// Puts the lines of all entries of a trace.
fn put_entries(text: &mut Text, entries: usize, trace: &[u8])
    requires { (text.old.length + 33 * entries ≤ 135311) × (4 + 5 * entries ≤ length trace.now) × (entries ≤ 4096) }
    ensures { Appends (33 * entries) (lines_from_trace entries trace.now) text.old text.new }
{
    for at in 0..entries {
        let value = word_at(trace, 4 + entries + 4 * at);
        put_entry(text, at as u32, trace[4 + at], value);
    }
}

// Puts the three totals, and a byte behind them.
fn put_totals(text: &mut Text, tally: Tally, behind: u8)
    requires { text.old.length + 52 ≤ 135311 }
    ensures { Appends 52 (joined (behind ∷ []) (totals_words tally)) text.old text.new }
{
    text.put_bytes(b"given ");
    text.put_number(tally.given, SPACE);
    text.put_bytes(b"aborts ");
    text.put_number(tally.aborts, SPACE);
    text.put_bytes(b"waits ");
    text.put_number(tally.waits, behind);
}

// Puts the last line: the totals, and how far memory lagged at most.
fn put_summary(text: &mut Text, summary: Summary)
    requires { text.old.length + 70 ≤ 135311 }
    ensures { Appends 70 (last_line summary) text.old text.new }
{
    put_totals(text, summary.tally, SPACE);
    text.put_bytes(b"hidden ");
    text.put_number(summary.hidden, NEWLINE);
}

// Puts the last line of the queue that is run.
fn put_last(text: &mut Text, queue: Queue, summary: Summary)
    requires { text.old.length + 70 ≤ 135311 }
    ensures { Appends 70 (last_line_on queue summary) text.old text.new }
{
    match queue {
        Queue::FfThe => put_summary(text, summary),
        Queue::FfCl => put_totals(text, summary.tally, NEWLINE),
    }
}

// Puts the line of a refused file.
fn put_refusal(text: &mut Text, refusal: Refusal)
    requires { (text.old.length + 36 ≤ 135311) × (place_of refusal < 4294967296) }
    ensures { Appends 36 (refusal_line refusal) text.old text.new }
{
    text.put_bytes(b"refused ");
    text.put_number(refusal.number() as u32, SPACE);
    text.put_bytes(b"place ");
    text.put_number(refusal.place() as u32, NEWLINE);
}

// Runs a file that was read, by its sizes and its two parts, and puts its lines.
fn put_run(text: &mut Text, queue: Queue, sizes: Sizes, kinds: &[u8], operands: &[u8])
    requires { (text.old.length ≡ 0) × (length kinds.now ≤ 4096) }
    ensures { Appends 135311 (run_lines queue sizes (outcomes_from_on queue sizes kinds.now (words_in operands.now)) (summary_from_on queue sizes kinds.now (words_in operands.now))) text.old text.new }
{
    let mut trace = [0; LONGEST_TRACE];
    let summary = obey_entries_on(queue, sizes, kinds, operands, &mut trace);
    put_sizes(text, sizes);
    put_entries(text, kinds.len(), &trace);
    put_last(text, queue, summary);
}

// Puts what the program of a queue prints for a file.
fn put_lines(text: &mut Text, queue: Queue, file: &[u8])
    requires { text.old.length ≡ 0 }
    ensures { Appends 135311 (lines_of queue file.now) text.old text.new }
{
    let reading = read(file);
    // 01 names this form for a refusal of the whole file.
    let Ok((sizes, _)) = reading else {
        put_refusal(text, refusal_of(reading));
        return;
    };
    let kinds = kind_part(file, reading);
    let operands = operand_part(file, reading);
    put_run(text, queue, sizes, kinds, operands);
}

// What the program of a queue prints for a file.
pub fn lines_of(queue: Queue, file: &[u8]) -> Text
    ensures length_value { (result.length ≡ length (lines_of queue file.now)) × (result.length ≤ length result.bytes) }
    ensures bytes_value { result.bytes ≡ overwritten 0 (lines_of queue file.now) (replicate 135311 0) }
{
    let mut text = Text {
        bytes: [0; TEXT_ROOM],
        length: 0,
    };
    put_lines(&mut text, queue, file);
    text
}
