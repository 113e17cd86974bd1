//! Known forms: the word that begins one says which items may follow.
ghost use Rattle.std.specs.Prelude.{◌≡◌};
ghost use Rattle.std.specs.Option.{option_map};
ghost use Rattle.bracket.specs.Items.{kind_of, side_item, join_items, single_items, board_items, component_items, draft_form, call_form, question_form, any_form, form_of};

use super::commands::{BoardText, Command, Kind, Side};
use super::items::{Rest, numbers, spells};

// An `Option` and no `TryFrom`, whose error would tell nobody anything.
fn kind_of(word: &[u8]) -> Option<Kind>
    ensures { result ≡ kind_of word.now }
{
    match word {
        b"fixed" => Some(Kind::Fixed),
        b"deadline" => Some(Kind::Deadline),
        _ => None,
    }
}

// One side of a join, in brackets of its own.
fn side_item(rest: &mut Rest) -> Option<Side>
    ensures { option_map (λ side. (side, rest.new.bytes.now)) result ≡ side_item rest.old.bytes.now }
{
    rest.skip(b" (")?;
    let kind = kind_of(rest.run())?;
    let reach = rest.number()?;
    rest.skip(b")")?;
    Some(Side { kind, reach })
}

fn join_items(bytes: &[u8]) -> Option<BoardText>
    ensures { result ≡ join_items bytes.now }
{
    let mut rest = Rest { bytes };
    let first = side_item(&mut rest)?;
    let second = side_item(&mut rest)?;
    spells(rest.bytes, b")").then_some(BoardText::Join(first, second))
}

// Numbers are taken apart by a `let`, here and below: `map` with a closure that does so was tried, and its proof did not close.
fn single_items(word: &[u8], bytes: &[u8]) -> Option<BoardText>
    ensures { result ≡ single_items word.now bytes.now }
{
    let kind = kind_of(word)?;
    let [reach] = numbers::<1>(bytes, b")")?;
    Some(BoardText::Single(Side { kind, reach }))
}

// An `if`: a `match` was tried, and the proof that no other word is `join` did not close.
#[tactic(auto, unfolding(crate::specs::Items::board_items))]
fn board_items(bytes: &[u8]) -> Option<BoardText>
    ensures { result ≡ board_items bytes.now }
{
    let mut rest = Rest { bytes };
    rest.skip(b" ")?;
    let word = rest.run();
    if spells(word, b"join") {
        join_items(rest.bytes)
    } else {
        single_items(word, rest.bytes)
    }
}

#[tactic(auto, unfolding(crate::specs::Items::component_items))]
fn component_items(bytes: &[u8]) -> Option<Command>
    ensures { result ≡ component_items bytes.now }
{
    let mut rest = Rest { bytes };
    let level = rest.number()?;
    rest.skip(b" (budget")?;
    let [budget, period] = numbers::<2>(rest.bytes, b"))")?;
    Some(Command::Component {
        level,
        budget,
        period,
    })
}

// Here and below a word and its items stay two slices: a struct of them would be made for these calls alone, and taken apart in each.
// Arms that are alike but for their command stay apart, since each says which number goes to which field.

// A form that declares a part of a plan.
fn draft_form(word: &[u8], items: &[u8]) -> Option<Command>
    ensures { result ≡ draft_form word.now items.now }
{
    match word {
        b"board" => board_items(items).map(Command::Board),
        b"component" => component_items(items),
        b"task" => {
            let [component, deadline] = numbers::<2>(items, b")")?;
            Some(Command::Task {
                component,
                deadline,
            })
        }
        b"use" => {
            let [component, resource, access] = numbers::<3>(items, b")")?;
            Some(Command::Use {
                component,
                resource,
                access,
            })
        }
        _ => None,
    }
}

// A form that calls a running controller.
fn call_form(word: &[u8], items: &[u8]) -> Option<Command>
    ensures { result ≡ call_form word.now items.now }
{
    match word {
        b"release" => {
            let [component, task] = numbers::<2>(items, b")")?;
            Some(Command::Release { component, task })
        }
        b"done" => {
            let [component, task] = numbers::<2>(items, b")")?;
            Some(Command::Done { component, task })
        }
        b"lock" => {
            let [component, task, resource] = numbers::<3>(items, b")")?;
            Some(Command::Lock {
                component,
                task,
                resource,
            })
        }
        b"unlock" => {
            let [component, task, resource] = numbers::<3>(items, b")")?;
            Some(Command::Unlock {
                component,
                task,
                resource,
            })
        }
        b"tick" => spells(items, b")").then_some(Command::Tick),
        _ => None,
    }
}

// A form that asks a running controller.
fn question_form(word: &[u8], items: &[u8]) -> Option<Command>
    ensures { result ≡ question_form word.now items.now }
{
    match word {
        b"runner" => spells(items, b")").then_some(Command::Runner),
        b"ceiling" => spells(items, b")").then_some(Command::Ceiling),
        b"budget" => {
            let [component] = numbers::<1>(items, b")")?;
            Some(Command::Budget { component })
        }
        b"holder" => {
            let [resource] = numbers::<1>(items, b")")?;
            Some(Command::Holder { resource })
        }
        b"bound" => {
            let [component] = numbers::<1>(items, b")")?;
            Some(Command::Bound { component })
        }
        b"assured" => {
            let [component] = numbers::<1>(items, b")")?;
            Some(Command::Assured { component })
        }
        _ => None,
    }
}

fn any_form(word: &[u8], items: &[u8]) -> Option<Command>
    ensures { result ≡ any_form word.now items.now }
{
    draft_form(word, items)
        .or_else(|| call_form(word, items))
        .or_else(|| question_form(word, items))
}

// The command that the line is the text of, if it is one.
pub(crate) fn command(line: &[u8]) -> Option<Command>
    ensures { result ≡ form_of line.now }
{
    let mut rest = Rest { bytes: line };
    rest.skip(b"(")?;
    let word = rest.run();
    any_form(word, rest.bytes)
}
