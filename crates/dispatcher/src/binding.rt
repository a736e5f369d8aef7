// Tags bound to rows: the rules that making keeps, and making itself.
ghost use Rattle.std.specs.Prelude.{◌≡◌, not, ◌==◌};
ghost use Rattle.std.specs.Cmp.Lexicographic.{pointwise};
ghost use Rattle.std.specs.List.{list_all};
ghost use Rattle.dispatcher_rules.specs.Bound.{bound_test};
ghost use Rattle.dispatcher_rules.specs.Make.{make_of};

use cap::ROWS;
use dispatcher_rules::answers::{MakeError, Making};
use dispatcher_rules::state::{
    Dispatcher, MAX_JOBS, MAX_VARIANTS, NO_JOB, NO_VARIANT, Tag, Variant,
};

// Whether none of these has the tag.
fn new_tag(lower: &[Variant], tag: Tag) -> bool
    ensures { result ≡ list_all (λ v. not (pointwise ◌==◌ v.tag.bytes tag.bytes)) lower.now }
{
    lower.iter().all(|v| v.tag != tag)
}

// Whether a dispatcher may have these variants: not more than 16, different tags, rows below 54.
pub fn bound(count: usize, variants: [Variant; MAX_VARIANTS]) -> bool
    ensures { result ≡ bound_test count variants }
{
    if count > MAX_VARIANTS {
        return false;
    }
    variants[..count]
        .iter()
        .enumerate()
        .all(|(i, v)| v.row < ROWS && new_tag(&variants[..i], v.tag))
}

// A dispatcher with the first `count` variants bound, and no place open; else 37, and with it one with nothing bound.
pub fn make(count: usize, variants: [Variant; MAX_VARIANTS]) -> Making
    ensures { result ≡ make_of count variants }
{
    if bound(count, variants) {
        let made = Dispatcher {
            count,
            variants,
            jobs: [NO_JOB; MAX_JOBS],
        };
        return Making {
            answer: Ok(()),
            dispatcher: made,
        };
    }
    let empty = Dispatcher {
        count: 0,
        variants: [NO_VARIANT; MAX_VARIANTS],
        jobs: [NO_JOB; MAX_JOBS],
    };
    Making {
        answer: Err(MakeError::BadVariants),
        dispatcher: empty,
    }
}
