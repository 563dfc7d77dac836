use super::*;
use ledger_codec::OutOfMemory;
use ledger_strategy::Sequential;
use ledger_transfers::*;
use std::alloc::Global;
use std::random::RandomSource;
use std::test::*;
use std::thread::Threads;

const ALICE: u8 = 1;

const BOB: u8 = 2;

const CAROL: u8 = 3;

const DAVE: u8 = 4;

/// A numbered account.
fn numbered(balance: u64, nonce: u64) -> Option<Sequenced> {
    Some(Sequenced { balance, nonce })
}

#[test]
fn dropped_payments_take_no_nonce(rt: HostRuntime) -> Result<(), Fail> {
    let first = [
        Stated::pay_with(ALICE, BOB, 6, 0),
        Stated::pay_with(ALICE, CAROL, 5, 1),
    ];
    let second = [
        Stated::pay_with(BOB, CAROL, 1, 0),
        Stated::pay_with(ALICE, DAVE, 4, 1),
    ];
    let played = play(
        &rt,
        rt.alloc(),
        &[(ALICE, numbered(10, 0))],
        &first,
        &second,
    )?;
    assert_eq!(rt; played.first.as_slice(), [true, false].as_slice());
    assert_eq!(rt; played.second.as_slice(), [false, true].as_slice());
    assert_eq!(rt;
        played.keys.as_slice(),
        [ALICE, BOB, CAROL, DAVE].as_slice()
    );
    let want = [
        Slot::Put(Sequenced {
            balance: 0,
            nonce: 2,
        }),
        Slot::Put(Sequenced {
            balance: 6,
            nonce: 0,
        }),
        Slot::Keep,
        Slot::Put(Sequenced {
            balance: 4,
            nonce: 0,
        }),
    ];
    assert_eq!(rt; played.slots.as_slice(), want.as_slice());
    Ok(())
}

#[test]
fn a_credit_of_a_round_funds_nothing(rt: HostRuntime) -> Result<(), Fail> {
    let first = [Stated::pay(ALICE, BOB, 6), Stated::pay(ALICE, CAROL, 5)];
    let second = [Stated::pay(BOB, CAROL, 1), Stated::pay(ALICE, DAVE, 4)];
    let played = play(
        &rt,
        rt.alloc(),
        &[(ALICE, Some(Balance(10)))],
        &first,
        &second,
    )?;
    assert_eq!(rt; played.first.as_slice(), [true, false].as_slice());
    assert_eq!(rt; played.second.as_slice(), [false, true].as_slice());
    let want = [
        Slot::Delete,
        Slot::Put(Balance(6)),
        Slot::Keep,
        Slot::Put(Balance(4)),
    ];
    assert_eq!(rt; played.slots.as_slice(), want.as_slice());
    Ok(())
}

/// The ranges of new keys of two rounds.
fn new_keys(
    alloc: Global,
    first: &[Stated<Balance>],
    second: &[Stated<Balance>],
) -> Result<[usize; 4], OutOfMemory> {
    let mut selection = Selection::with_seed(alloc, 7);
    let one = selection.touch(alloc, first)?;
    let two = selection.touch(alloc, second)?;
    Ok([one.start, one.end, two.start, two.end])
}

#[test]
fn touch_answers_the_new_keys(rt: HostRuntime) -> Result<(), Fail> {
    let first = [Stated::pay(ALICE, BOB, 6), Stated::pay(ALICE, CAROL, 5)];
    let second = [Stated::pay(BOB, CAROL, 1), Stated::pay(ALICE, DAVE, 4)];
    assert_eq!(rt; new_keys(rt.alloc(), &first, &second)?, [0, 3, 3, 4]);
    Ok(())
}

#[test]
fn a_body_settles_whole(rt: HostRuntime) -> Result<(), Fail> {
    let held = [
        (ALICE, Some(Balance(100))),
        (BOB, Some(Balance(20))),
        (CAROL, None),
    ];
    let transfers = [Stated::pay(ALICE, BOB, 30), Stated::pay(BOB, ALICE, 5)];
    let ends = body(&rt, rt.alloc(), &held, &transfers)?;
    let want = [
        Some(Slot::Put(Balance(75))),
        Some(Slot::Put(Balance(45))),
        None,
    ];
    assert_eq!(rt; ends.as_slice(), want.as_slice());
    Ok(())
}

/// How many keys a plan with a fresh seed has, and whether it has none.
fn size_of_plan<R: RandomSource + Threads + Sync>(
    rt: &R,
    alloc: Global,
    transfers: &[Stated<Balance>],
) -> Result<(usize, bool), Unmet> {
    let plan: Plan<u8, Balance> = Plan::new(rt, alloc, transfers, &Sequential)?;
    Ok((plan.len(), plan.is_empty()))
}

#[test]
fn a_plan_has_the_touched_keys(rt: HostRuntime) -> Result<(), Fail> {
    let transfers = [Stated::pay(ALICE, BOB, 30), Stated::pay(BOB, ALICE, 5)];
    assert_eq!(rt; size_of_plan(&rt, rt.alloc(), &transfers)?, (2, false));
    assert_eq!(rt; size_of_plan(&rt, rt.alloc(), &[])?, (0, true));
    Ok(())
}

/// What a body makes of the one held account, or the rejection.
fn slot_of<A: Account + Copy, R: Threads + Sync>(
    rt: &R,
    alloc: Global,
    held: &[(u8, Option<A>)],
    transfers: &[Stated<A>],
) -> Result<Result<Option<Slot<A>>, Rejection<u8>>, Unmet> {
    match body(rt, alloc, held, transfers) {
        Ok(mut ends) => Ok(Ok(ends.pop().unwrap_or(None))),
        Err(Unmet::Rejected(rejection)) => Ok(Err(rejection)),
        Err(unmet) => Err(unmet),
    }
}

#[test]
fn nonces_of_a_body_count_up(rt: HostRuntime) -> Result<(), Fail> {
    for (second, want) in [
        (0, Err(Rejection::Refused(ALICE))),
        (
            1,
            Ok(Some(Slot::Put(Sequenced {
                balance: 0,
                nonce: 2,
            }))),
        ),
    ] {
        let transfers = [
            Stated::pay_with(ALICE, BOB, 5, 0),
            Stated::pay_with(ALICE, BOB, 5, second),
        ];
        assert_eq!(rt;
            slot_of(&rt, rt.alloc(), &[(ALICE, numbered(10, 0))], &transfers)?,
            want
        );
    }
    Ok(())
}

#[test]
fn a_later_effect_stands_in_the_place_of_an_earlier(rt: HostRuntime) {
    let change: Change<u64> = Change::debit(5).with_effect(0).with_effect(1);
    assert_eq!(rt;
        (change.debit, change.credit, change.effect),
        (5, 0, Some(1))
    );
}

#[test]
fn a_default_may_have_a_balance(rt: HostRuntime) -> Result<(), Fail> {
    for (account, credit, want) in [
        (Some(Five(5)), 2, Slot::Keep),
        (None, 2, Slot::Keep),
        (Some(Five(7)), 0, Slot::Delete),
    ] {
        let transfers = [Stated::of(
            ALICE,
            Change::debit(2),
            Change::credit(credit),
            Change::default(),
        )];
        assert_eq!(rt;
            slot_of(&rt, rt.alloc(), &[(ALICE, account)], &transfers)?,
            Ok(Some(want))
        );
    }
    Ok(())
}

/// A transfer of one change of alice.
fn one<A: Account>(change: Change<A::Effect>) -> Stated<A> {
    Stated::of(ALICE, change, Change::default(), Change::default())
}

#[test]
fn a_body_of_sums_above_the_greatest_amount_overflows(rt: HostRuntime) -> Result<(), Fail> {
    let balance = slot_of(
        &rt,
        rt.alloc(),
        &[(ALICE, Some(Balance(5)))],
        &[one(Change::credit(u64::MAX))],
    )?;
    assert_eq!(rt; balance, Err(Rejection::Overflow(ALICE)));
    let two = [one(Change::credit(1)), one(Change::credit(u64::MAX))];
    let sum = slot_of(&rt, rt.alloc(), &[(ALICE, None::<Balance>)], &two)?;
    assert_eq!(rt; sum, Err(Rejection::Overflow(ALICE)));
    Ok(())
}

#[test]
fn a_candidate_above_the_greatest_amount_is_dropped(rt: HostRuntime) -> Result<(), Fail> {
    let two: [Stated<Balance>; 2] = [one(Change::credit(1)), one(Change::credit(u64::MAX))];
    let played = play(&rt, rt.alloc(), &[], &two, &[])?;
    assert_eq!(rt; played.first.as_slice(), [true, false].as_slice());
    Ok(())
}

#[test]
fn an_empty_transfer_is_taken_and_touches_no_key(rt: HostRuntime) -> Result<(), Fail> {
    let empty: [Stated<Balance>; 1] = [one(Change::debit(0))];
    let played = play(&rt, rt.alloc(), &[], &empty, &[])?;
    assert_eq!(rt; played.first.as_slice(), [true].as_slice());
    assert!(rt; played.keys.is_empty());
    Ok(())
}

#[test]
fn an_overflow_after_two_debits_leaves_nothing(rt: HostRuntime) -> Result<(), Fail> {
    let all = [
        Stated::of(
            ALICE,
            Change::debit(4),
            Change::debit(4),
            Change::credit(u64::MAX),
        ),
        one(Change::debit(10)),
    ];
    let played = play(&rt, rt.alloc(), &[(ALICE, Some(Balance(10)))], &all, &[])?;
    assert_eq!(rt; played.first.as_slice(), [false, true].as_slice());
    assert_eq!(rt; played.slots.as_slice(), [Slot::Delete].as_slice());
    Ok(())
}

#[test]
fn a_repeated_nonce_leaves_nothing(rt: HostRuntime) -> Result<(), Fail> {
    let all = [
        Stated::of(
            ALICE,
            Change::effect(0),
            Change::effect(0),
            Change::default(),
        ),
        Stated::of(
            ALICE,
            Change::effect(0),
            Change::effect(1),
            Change::default(),
        ),
    ];
    let played = play(&rt, rt.alloc(), &[(ALICE, numbered(10, 0))], &all, &[])?;
    assert_eq!(rt; played.first.as_slice(), [false, true].as_slice());
    let want = [Slot::Put(Sequenced {
        balance: 10,
        nonce: 2,
    })];
    assert_eq!(rt; played.slots.as_slice(), want.as_slice());
    Ok(())
}

/// The next of a row of numbers, from 0 to `last`.
fn draw(state: &mut u64, last: u8) -> u8 {
    *state = state
        .wrapping_mul(6364136223846793005)
        .wrapping_add(1442695040888963407);
    let range = u64::from(last) + 1;
    u8::try_from((*state >> 33) % range).unwrap_or(0)
}

/// A row of payments among four keys, with nonces from 0 to 7.
fn payments(alloc: Global, count: usize) -> Result<Vec<Payment>, Unmet> {
    let mut state = 1;
    let mut all = Vec::new(alloc);
    for _ in 0..count {
        all.push(Payment {
            from: draw(&mut state, 3),
            to: draw(&mut state, 3),
            amount: u64::from(draw(&mut state, 20)),
            nonce: u64::from(draw(&mut state, 7)),
        })?;
    }
    Ok(all)
}

/// The payments as transfers.
fn as_transfers(alloc: Global, all: &[Payment]) -> Result<Vec<Stated<Sequenced>>, Unmet> {
    let mut transfers = Vec::new(alloc);
    for payment in all {
        transfers.push(Stated::pay_with(payment.from, payment.to, payment.amount, payment.nonce))?;
    }
    Ok(transfers)
}

#[test]
fn a_selection_takes_what_plain_settling_takes(rt: HostRuntime) -> Result<(), Fail> {
    let candidates = payments(rt.alloc(), 200)?;
    let transfers = as_transfers(rt.alloc(), &candidates)?;
    let held = [
        (0, numbered(40, 0)),
        (1, numbered(40, 0)),
        (2, numbered(40, 0)),
        (3, numbered(40, 0)),
    ];
    let played = play(&rt, rt.alloc(), &held, &transfers, &[])?;
    let want = verdicts_anew(rt.alloc(), 4, 40, &candidates)?;
    assert_eq!(rt; played.first.as_slice(), want.as_slice());
    assert!(rt; want.contains(&true));
    assert!(rt; want.contains(&false));
    Ok(())
}

#[test]
fn rejections_name_the_account(rt: HostRuntime) -> Result<(), Fail> {
    for (rejection, want) in [
        (Rejection::Refused(7u8), "account 7 refuses an effect"),
        (
            Rejection::Insufficient(7),
            "account 7 cannot afford its debits",
        ),
        (Rejection::Overflow(7), "the balance of account 7 overflows"),
    ] {
        let text = format!(in rt.alloc(); "{rejection}")?;
        assert_eq!(rt; text.as_str(), want);
    }
    Ok(())
}

#[test]
fn a_batch_is_told_before_it_settles(rt: HostRuntime) -> Result<(), Fail> {
    let plain: [Stated<Sequenced>; 2] = [Stated::pay(ALICE, BOB, 3), Stated::pay(ALICE, BOB, 4)];
    assert!(rt; has_no_effects(rt.alloc(), &plain)?);
    assert!(rt; overdraws(rt.alloc(), &plain, ALICE, 6)?);
    assert!(rt; !overdraws(rt.alloc(), &plain, ALICE, 7)?);
    assert_eq!(rt; touches_of(rt.alloc(), &plain)?.len(), 4);
    let numbered: [Stated<Sequenced>; 1] = [Stated::pay_with(ALICE, BOB, 3, 0)];
    assert!(rt; !has_no_effects(rt.alloc(), &numbered)?);
    Ok(())
}

#[test]
fn promises_are_kept(rt: HostRuntime) -> Result<(), Fail> {
    assert!(rt; either_order(rt.alloc())?);
    assert!(rt; never_funded(rt.alloc())?);
    let both = both_ways(&rt, rt.alloc())?;
    let want = [
        Slot::Put(Sequenced {
            balance: 4,
            nonce: 1,
        }),
        Slot::Put(Sequenced {
            balance: 6,
            nonce: 0,
        }),
    ];
    assert_eq!(rt; both.chosen.as_slice(), want.as_slice());
    assert_eq!(rt; both.planned.as_slice(), want.as_slice());
    let settled = unaffordable(&rt, rt.alloc())?;
    assert!(rt;
        matches!(
            settled,
            Err(PlanFault::Rejected(Rejection::Insufficient(1)))
        )
    );
    Ok(())
}
