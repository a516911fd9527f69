// The conditions of an `if`.
ghost use Rattle.std.specs.Prelude.{◌≡◌, option_map, option_and_then};
ghost use Rattle.serde_json.specs.Find.{as_array};
ghost use Rattle.value_json.specs.Trees.{data_of};
ghost use Rattle.value_json.specs.Gives.{Gives};
ghost use Rattle.script_steps.specs.Conditions as spec;

use crate::texts::TEXT;
use script_scenarios::Test;
use std::alloc::Global;
use value_json::{Form, Number, Refused, Tree, Word, item_at, refused_here};

/// What a condition is about.
#[derive(Clone, Copy, Debug)]
pub(crate) enum Subject {
    Success,
    Error,
    Type,
    Status,
    Body,
}

const SUBJECT: Word<'static, Subject> = Word {
    words: &[
        ("ok", Subject::Success),
        ("error", Subject::Error),
        ("type", Subject::Type),
        ("status", Subject::Status),
        ("body", Subject::Body),
    ],
};

const STATUS: Number = Number {
    least: 0,
    most: 999,
};

// The first part of a list of one or two, and the second, where there is one.
fn parts_of<'t, 'a>(tree: &Tree<'t, 'a>) -> Option<(Tree<'t, 'a>, Option<Tree<'t, 'a>>)>
    ensures { option_map (λ parts. (data_of parts.0, option_map data_of parts.1)) result
        ≡ option_and_then spec.parts_of (as_array (data_of tree.now)) }
{
    let mut items = tree.items()?;
    let first = items.next()?;
    let Some(second) = items.next() else {
        return Some((first, None));
    };
    match items.next() {
        Some(_) => None,
        None => Some((first, Some(second))),
    }
}

// A condition that has no second part.
fn alone(alloc: Global, test: Test, second: Option<Tree<'_, '_>>) -> Result<Test, Refused>
    ensures { Gives result (spec.alone test (option_map data_of second.entry)) }
{
    match second {
        None => Ok(test),
        Some(_) => refused_here(alloc),
    }
}

// The second part of a condition that has one.
fn second_part<F: Form>(
    alloc: Global,
    second: Option<Tree<'_, '_>>,
    form: &F,
) -> Result<F::Out, Refused>
    ensures { Gives result
        (spec.second_part (F.reads form.now) (option_map data_of second.entry)) }
{
    match second {
        None => refused_here(alloc),
        Some(second) => item_at(alloc, 1, &second, form),
    }
}

// The condition of a word and a second part.
fn test_about(alloc: Global, about: Subject, second: Option<Tree<'_, '_>>) -> Result<Test, Refused>
    ensures { Gives result
        (spec.test_about about (option_map data_of second.entry)) }
{
    match about {
        Subject::Success => alone(alloc, Test::IsOk, second),
        Subject::Error => alone(alloc, Test::IsError, second),
        Subject::Type => Ok(Test::TypeIs(second_part(alloc, second, &TEXT)?)),
        Subject::Status => {
            let status = second_part(alloc, second, &STATUS)?;
            Ok(Test::StatusIs(status as u16))
        }
        Subject::Body => Ok(Test::BodyIs(second_part(alloc, second, &TEXT)?)),
    }
}

/// A condition: a list of a word, and of what is compared with it where the word has such a part.
#[derive(Drop)]
pub(crate) struct Condition;

impl Form for Condition {
    type Out = Test;

    ghost reads = { λ _. spec.test_of };

    fn read(&self, alloc: Global, tree: &Tree<'_, '_>) -> Result<Test, Refused> {
        let Some((first, second)) = parts_of(tree) else {
            return refused_here(alloc);
        };
        let about = item_at(alloc, 0, &first, &SUBJECT)?;
        test_about(alloc, about, second)
    }
}
