// A line of text to the command that it writes.
ghost use Rattle.std.specs.Prelude.{◌≡◌};
ghost use Rattle.std.specs.Fn.{FnOnceReturnsAt};
ghost use Rattle.std.specs.Option.{ok_or};
ghost use Rattle.console.specs.Commands.{Starts, Dated, ends, side_of, limit_of, product_line, order_line, command_line};
ghost use Rattle.console.specs.declared.command.Fault.TheVariants.{Number as number_fault, Side as side_fault, Limit as limit_fault};
ghost use Rattle.reading.specs.Numerals.{numeral};

use crate::command::{Command, Fault, Order, Span, Verb};
use reading::number::number;
use reading::words::{before_comment, split_word};
use terms::duration::Duration;
use terms::side::Side;

// The first word as what it stands for, and what stands after it; or the line is at fault.
fn word_as<T, F: FnOnce(&[u8]) -> Result<T, Fault>>(
    text: &[u8],
    read: F,
) -> Result<(T, &[u8]), Fault>
    requires { F.IsAlwaysCallable read }
    ensures { Starts (FnOnceReturnsAt F.FnOnce read) text.now result }
{
    let (word, rest) = split_word(text);
    Ok((read(word)?, rest))
}

fn number_of(word: &[u8]) -> Result<u32, Fault>
    ensures { result ≡ ok_or (numeral word.now) number_fault }
{
    number(word).ok_or(Fault::Number)
}

fn side_of(word: &[u8]) -> Result<Side, Fault>
    ensures { result ≡ ok_or (side_of word.now) side_fault }
{
    match word {
        b"buy" => Ok(Side::Buy),
        b"sell" => Ok(Side::Sell),
        _ => Err(Fault::Side),
    }
}

// A price, or none for a market order.
fn limit_of(word: &[u8]) -> Result<Option<u32>, Fault>
    ensures { result ≡ ok_or (limit_of word.now) limit_fault }
{
    match word {
        b"market" => Ok(None),
        _ => number(word).map(Some).ok_or(Fault::Limit),
    }
}

fn ends(text: &[u8], command: Command) -> Result<Command, Fault>
    ensures { result ≡ ends text.now command }
{
    let (word, _) = split_word(text);
    if word.is_empty() {
        Ok(command)
    } else {
        Err(Fault::Surplus)
    }
}

fn product_line(text: &[u8]) -> Result<Command, Fault>
    ensures { result ≡ product_line text.now }
{
    let (sweep, text) = word_as(text, number_of)?;
    let (daily, text) = word_as(text, number_of)?;
    let (reference, text) = word_as(text, number_of)?;
    ends(
        text,
        Command::Product {
            sweep,
            daily,
            reference,
        },
    )
}

// A duration until a date goes on with the date.
fn dated(span: Span, text: &[u8]) -> Result<(Duration, &[u8]), Fault>
    ensures { Dated span text.now result }
{
    match span {
        Span::Now => Ok((Duration::Now, text)),
        Span::Session => Ok((Duration::Session, text)),
        Span::Day => Ok((Duration::Day, text)),
        Span::UntilCancelled => Ok((Duration::UntilCancelled, text)),
        Span::Until => {
            let (date, text) = word_as(text, number_of)?;
            Ok((Duration::Until(date), text))
        }
    }
}

fn order_line(text: &[u8]) -> Result<Command, Fault>
    ensures { result ≡ order_line text.now }
{
    let (side, text) = word_as(text, side_of)?;
    let (quantity, text) = word_as(text, number_of)?;
    let (limit, text) = word_as(text, limit_of)?;
    let (participant, text) = word_as(text, number_of)?;
    let (span, text) = word_as(text, |word| Span::try_from(word))?;
    let (duration, text) = dated(span, text)?;
    let order = Order {
        side,
        quantity,
        limit,
        participant,
        duration,
    };
    ends(text, Command::Enter(order))
}

// The command of a line; none for one that is blank but for a comment.
pub fn parse_line(line: &[u8]) -> Result<Option<Command>, Fault>
    ensures { result ≡ command_line line.now }
{
    let (word, text) = split_word(before_comment(line));
    if word.is_empty() {
        return Ok(None);
    }
    let command = match Verb::try_from(word)? {
        Verb::Product => product_line(text),
        Verb::Enter => order_line(text),
        Verb::Top => ends(text, Command::Top),
        Verb::Range => ends(text, Command::Range),
        Verb::Tape => ends(text, Command::Tape),
        Verb::Hex => ends(text, Command::Hex),
    };
    command.map(Some)
}
