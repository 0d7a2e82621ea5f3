// The line that is printed for an answer.
ghost use Rattle.std.specs.Prelude.{◌≡◌, ℕ, [], ◌∷◌, ◌+◌, ◌*◌, ◌≤◌, ◌<◌, length, get_or};
ghost use Rattle.symbols.specs.Answer.{refusal_number, number_of, answer_of, number_with, answer_of_parse, links_with};
ghost use Rattle.text.specs.Puts.{Adds};
ghost use Rattle.replies.specs.Printed.{line_of, answer_line, change_line, past_checks, parse_line, collect_line};

use symbols::{Refusal, Verdict};
use text::Text;

// 01's numbers of the answers that are no refusal.
const DONE: usize = 0;

const ACCEPT: usize = 1;

const REJECT: usize = 2;

// Puts the line of an answer alone: New's, a malformed line's.
pub fn put_done(done: Result<(), Refusal>, text: &mut Text)
    requires { text.old.end + 5 ≤ length text.old.bytes.now }
    ensures { Adds text.old text.new (answer_line (number_of (answer_of done))) }
{
    match done {
        Ok(()) => put_line(DONE, &[], text),
        Err(refusal) => put_refusal(refusal, text),
    }
}

// Puts the line of Add and Delete: the rule's number follows where it is done.
pub fn put_change(changed: Result<usize, Refusal>, text: &mut Text)
    requires { (number_with changed ≤ 9999) × (text.old.end + 10 ≤ length text.old.bytes.now) }
    ensures { Adds text.old text.new (change_line (number_of (answer_of changed)) (number_with changed)) }
{
    match changed {
        Ok(rule) => put_line(DONE, &[rule], text),
        Err(refusal) => put_refusal(refusal, text),
    }
}

// Puts the line of Parse: links and sets in use follow on a verdict, "also on 20 and 21".
pub fn put_parse(read: Result<Verdict, Refusal>, sets: usize, text: &mut Text)
    requires { (links_with read ≤ 9999) × (sets ≤ 9999) × (text.old.end + 15 ≤ length text.old.bytes.now) }
    ensures { Adds text.old text.new (parse_line (number_of (answer_of_parse read)) (links_with read) sets) }
{
    match read {
        Ok(verdict) => {
            let answer = if verdict.accepts { ACCEPT } else { REJECT };
            put_line(answer, &[verdict.links, sets], text);
        }
        Err(refusal) if is_past_checks(refusal) => put_line(
            usize::from(refusal.number()),
            &[0, sets],
            text,
        ),
        Err(refusal) => put_refusal(refusal, text),
    }
}

// Whether a Parse that was refused had got past its checks.
fn is_past_checks(refusal: Refusal) -> bool
    ensures { result ≡ past_checks (refusal_number refusal) }
{
    // an arm for each, which an edit can turn (must-fail/no_links_printed_alone)
    match refusal {
        Refusal::NoSets => true,
        Refusal::NoLinks => true,
        _ => false,
    }
}

// Puts the line of Collect and Restart: the sets in use follow where it is done.
pub fn put_collect(done: Result<(), Refusal>, sets: usize, text: &mut Text)
    requires { (sets ≤ 9999) × (text.old.end + 10 ≤ length text.old.bytes.now) }
    ensures { Adds text.old text.new (collect_line (number_of (answer_of done)) sets) }
{
    match done {
        Ok(()) => put_line(DONE, &[sets], text),
        Err(refusal) => put_refusal(refusal, text),
    }
}

// "Other refusals print the number alone"
fn put_refusal(refusal: Refusal, text: &mut Text)
    requires { text.old.end + 5 ≤ length text.old.bytes.now }
    ensures { Adds text.old text.new (answer_line (refusal_number refusal)) }
{
    put_line(usize::from(refusal.number()), &[], text);
}

// Puts a line of numbers: the first, and those that follow it.
fn put_line(first: usize, more: &[usize], text: &mut Text)
    requires fits { (first ≤ 9999) × ((k : ℕ) → k < length more.now → get_or more.now k 0 ≤ 9999) }
    requires room { text.old.end + 5 * length more.now + 5 ≤ length text.old.bytes.now }
    ensures { Adds text.old text.new (line_of first more.now) }
{
    text.put_number(first);
    for &n in more {
        text.put_spaced(n);
    }
    text.put_byte(b'\n');
}
