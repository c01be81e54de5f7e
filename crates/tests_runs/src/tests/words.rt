//! The words of a call, and the kind of pick rule that they name.
ghost use Rattle.std.specs.Prelude.{◌≤◌, ◌<◌};

use crate::tests::calls::{Call, DONE, cut_at, ends, ends_by};
use gl_demand::{Silent, Steps};
use gl_order::{Order, by_kind};
use gl_run::Status;
use std::alloc::Global;
use std::cell::Cell;
use std::test::Fail;

/// What the largest generated script is answered.
const LARGEST: &[u8] = b"ok\nok\nok\nok\nok\nok\nsettled 2\n61485922\n256\n61486921\nbye\n";

/// The words of calls over a script of one line, the replies, and how they end.
const CALLS: &[(&[&str], &[u8], Status)] = &[
    (
        &["--gen", "3"],
        b"ok\nok\nok\nok\nok\nok\nsettled 2\n36\n256\n1035\nbye\n",
        DONE,
    ),
    (
        &["--gen", "3", "--order", "turn"],
        b"ok\nok\nok\nok\nok\nok\nsettled 2\n36\n256\n1035\nbye\n",
        DONE,
    ),
    (&["--gen", "1600"], LARGEST, DONE),
    (&["--gen", "1600", "--order", "last"], LARGEST, DONE),
    (&["--order", "turn", "--gen", "1600"], LARGEST, DONE),
    (&["--gen", "0"], b"", Status::Usage),
    (&["--gen", "1601"], b"", Status::Usage),
    (&["--order", "middle"], b"", Status::Usage),
    (&["--gen", "03"], b"", Status::Usage),
    (&["--gen"], b"", Status::Usage),
    (&["--order"], b"", Status::Usage),
    (&["--order", "first", "--order", "last"], b"", Status::Usage),
    (&["--gen", "3", "--gen", "3"], b"", Status::Usage),
    (&["x"], b"", Status::Usage),
    (&["--what"], b"", Status::Usage),
    (&["--gen", "3", "x"], b"", Status::Usage),
    (&["--gen", "+3"], b"", Status::Usage),
    (&["--order=first"], b"", Status::Usage),
];

/// The call with these words has these replies and ends so.
fn is_taken(alloc: Global, words: &[&str], replies: &[u8], status: Status) -> Result<bool, Fail> {
    let call = Call {
        words,
        script: b"show A1\n",
        replies,
        status,
    };
    ends(alloc, &call, &cut_at(4096))
}

#[test]
fn words_of_calls(rt: HostRuntime) -> Result<(), Fail> {
    for (words, replies, status) in CALLS {
        assert!(rt; is_taken(rt.alloc(), words, replies, *status)?, "{words:?}");
    }
    Ok(())
}

/// An array that spills, and one that is computed of it: they settle in three rounds.
const ARRAYS: &[u8] = b"set A1 =SEQUENCE(3,1)\nset B1 =A1#*2\ncalc\noracle\nview A1:B3\n";

const ARRAYS_REPLIES: &[u8] =
    b"ok\nok\nsettled 3\noracle 2\nA1 3x1 permitted\nB1 3x1 permitted\n1 2\n2 4\n3 6\n";

/// The run of the arrays with these words asks its rule at least once for each evaluation, always for
/// this kind.
fn asks_for(alloc: Global, words: &[&str], kind: u8) -> Result<bool, Fail> {
    let wanted = Cell::new(0u64);
    let others = Cell::new(0u64);
    let order = Order::new(
        |asked: u8, turn: u64, n: u64| -> u64
            requires { (asked ≤ 2) × (1 ≤ n) }
            ensures { result < n }
        {
            let count = if asked == kind { &wanted } else { &others };
            count.set(count.get().wrapping_add(1));
            by_kind(asked, turn, n)
        },
    );
    let call = Call {
        words,
        script: ARRAYS,
        replies: ARRAYS_REPLIES,
        status: DONE,
    };
    let mut steps = Steps::new(Silent);
    let ended = ends_by(alloc, &call, &cut_at(4096), &order, &mut steps)?;
    let is_enough = steps.done() > 0 && wanted.get() >= steps.done();
    Ok(ended && is_enough && others.get() == 0)
}

/// Words, and the kind of rule that they name: the first without a word.
const KINDS: &[(&[&str], u8)] = &[
    (&[], 0),
    (&["--order", "first"], 0),
    (&["--order", "last"], 1),
    (&["--order", "turn"], 2),
];

#[test]
fn the_words_name_the_kind(rt: HostRuntime) -> Result<(), Fail> {
    for (words, kind) in KINDS {
        assert!(rt; asks_for(rt.alloc(), words, *kind)?, "{words:?}");
    }
    Ok(())
}
