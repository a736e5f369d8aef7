// What a line shows of each answer: its number and its values. A refusal shows none, but for the reason why an id is shut.
ghost use Rattle.std.specs.Prelude.{◌≡◌};
ghost use Rattle.laws.specs.Refusals.{none};
ghost use Rattle.shown.specs.Shown.{shown, pushed_all, of_either};
ghost use Rattle.ipc_rules.specs.Why.{why_error_number, why_error_values};
ghost use Rattle.ipc_rules.specs.Answers.{done, message_values, waiter_values, four_waiter_values, channel_values, refusals_values, new_error_number, create_error_number, send_error_number, recv_error_number, park_error_number, cap_error_number, register_error_number, table_error_number, park_number, park_values};

use crate::answers::{
    CapError, CreateError, NewError, ParkAnswer, ParkError, RecvError, RegisterError, SendError,
    TableError, WhyError,
};
use crate::state::{Channel, Message, Refusals, Waiter};
use laws::refusals;
use shown::{Answer, Shown};

// `0`, or `1 slot epoch`, after what is shown already.
fn push_waiter(s: Shown, w: Waiter) -> Shown
    ensures { result ≡ pushed_all s (waiter_values w) }
{
    if w.present {
        let one = s.push(1);
        let two = one.push(w.task.slot as u64);
        return two.push(w.task.epoch as u64);
    }
    s.push(0)
}

pub fn four_shown(ws: [Waiter; 4]) -> Shown
    ensures { result ≡ shown none (four_waiter_values ws) }
{
    let a = push_waiter(Shown::new(refusals::NONE, &[]), ws[0]);
    let b = push_waiter(a, ws[1]);
    let c = push_waiter(b, ws[2]);
    push_waiter(c, ws[3])
}

// What a call shows that takes waiters out: the four stand beside its answer.
pub fn woken_shown<E: Answer>(answer: Result<(), E>, waiters: [Waiter; 4]) -> Shown
    ensures { result ≡ shown (of_either done E.number_of answer) (of_either (λ _. four_waiter_values waiters) E.values_of answer) }
{
    match answer {
        Ok(()) => four_shown(waiters),
        Err(refusal) => refusal.shown(),
    }
}

// A message that was given, or none.
pub fn park_shown(answer: ParkAnswer) -> Shown
    ensures { result ≡ shown (park_number answer) (park_values answer) }
{
    match answer {
        Ok(Some(m)) => Shown::new(refusals::NONE, &[1, m.tag as u64, m.a, m.b, m.row as u64]),
        Ok(None) => Shown::new(refusals::NONE, &[0]),
        Err(refusal) => refusal.shown(),
    }
}

// ---- what a call has done
impl Answer for Waiter {
    ghost values_of = { waiter_values };

    fn shown(self) -> Shown {
        if self.present {
            return Shown::new(
                refusals::NONE,
                &[1, self.task.slot as u64, self.task.epoch as u64],
            );
        }
        Shown::new(refusals::NONE, &[0])
    }
}

impl Answer for Channel {
    ghost values_of = { channel_values };

    fn shown(self) -> Shown {
        Shown::new(
            refusals::NONE,
            &[self.send.raw as u64, self.recv.raw as u64],
        )
    }
}

impl Answer for Message {
    ghost values_of = { message_values };

    fn shown(self) -> Shown {
        Shown::new(
            refusals::NONE,
            &[self.tag as u64, self.a, self.b, self.row as u64],
        )
    }
}

impl Answer for Refusals {
    ghost values_of = { refusals_values };

    fn shown(self) -> Shown {
        Shown::new(
            refusals::NONE,
            &[self.authority as u64, self.full as u64, self.state as u64],
        )
    }
}

// ---- refusals
impl Answer for NewError {
    ghost number_of = { new_error_number };

    fn shown(self) -> Shown {
        Shown::new(self as u8, &[])
    }
}

impl Answer for CreateError {
    ghost number_of = { create_error_number };

    fn shown(self) -> Shown {
        Shown::new(self as u8, &[])
    }
}

impl Answer for SendError {
    ghost number_of = { send_error_number };

    fn shown(self) -> Shown {
        Shown::new(self as u8, &[])
    }
}

impl Answer for RecvError {
    ghost number_of = { recv_error_number };

    fn shown(self) -> Shown {
        Shown::new(self as u8, &[])
    }
}

impl Answer for ParkError {
    ghost number_of = { park_error_number };

    fn shown(self) -> Shown {
        Shown::new(self as u8, &[])
    }
}

impl Answer for CapError {
    ghost number_of = { cap_error_number };

    fn shown(self) -> Shown {
        Shown::new(self as u8, &[])
    }
}

impl Answer for RegisterError {
    ghost number_of = { register_error_number };

    fn shown(self) -> Shown {
        Shown::new(self as u8, &[])
    }
}

impl Answer for TableError {
    ghost number_of = { table_error_number };

    fn shown(self) -> Shown {
        Shown::new(self as u8, &[])
    }
}

impl Answer for WhyError {
    ghost number_of = { why_error_number };

    ghost values_of = { why_error_values };

    fn shown(self) -> Shown {
        match self {
            WhyError::Shut(reason) => Shown::new(refusals::BAD_CAP, &[reason.number() as u64]),
            WhyError::BadTable => Shown::new(refusals::BAD_TABLE, &[]),
        }
    }
}
