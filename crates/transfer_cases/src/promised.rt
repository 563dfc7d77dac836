//! Promises of settling that stand under a premise, each kept once at payments of its own.
ghost use Rattle.std.specs.Prelude.{◌≡◌, ◌∷◌, ◌++◌, ℕ, List as Items, [], true, false, IfOk, IfErr, OnOk, IsTrue, Some, None, nat_eq, take, length};
ghost use Rattle.ledger_transfers.specs.Accounts.{balance_rules, sequenced_rules};
ghost use Rattle.ledger_transfers.specs.Batches.{SameSlots};
ghost use Rattle.ledger_transfers.specs.Orders.{EndsAlike};
ghost use Rattle.ledger_transfers.specs.Selecting.{AreReadBy};
ghost use Rattle.ledger_transfers.specs.Settling.{Settled};
ghost use Rattle.ledger_transfers.specs.Touches.{touches};
ghost use Rattle.ledger_transfers.specs.declared.balance.Balance.{Balance as BalanceOf};
ghost use Rattle.ledger_transfers.specs.declared.sequenced.Sequenced.{Sequenced as SequencedOf};
ghost use Rattle.ledger_transfers.specs.declared.slot.Slot.{Slot as SlotOf};
ghost use Rattle.transfer_cases.specs.Payments.{payment_changes, same_account};
ghost use Rattle.transfer_cases.specs.Promised.{AreRight, ArePlanned, FailsBoth, SettlesFirst, StandsOver, candidates, first, opening, paid, second, two_keys};
ghost use Rattle.transfer_cases.specs.declared.payment.Payment.{Payment as PaymentOf};

use crate::cases::Unmet;
use crate::payment::Payment;
use crate::stated::Stated;
use ledger_codec::{List, OutOfMemory};
use ledger_strategy::Sequential;
use ledger_transfers::{
    Balance, Plan, PlanFault, Selection, Sequenced, Slot, Stopped, has_no_effects, overdraws,
};
use std::alloc::Global;
use std::thread::Threads;

/// Whether a payment and one back have no effects. They have none: in the other order they settle exactly where they
/// do in this one, and all accounts end alike, whatever they open with.
pub fn either_order(alloc: Global) -> Result<bool, OutOfMemory>
    ensures none { IfOk result (λ free. free ≡ true) }
    ensures alike { OnOk result ((opened_at : ℕ → BalanceOf) → EndsAlike nat_eq balance_rules opened_at
        (paid 1 2 30 ++ paid 2 1 5) (paid 2 1 5 ++ paid 1 2 30)) }
{
    has_no_effects(
        alloc,
        &[Stated::<Balance>::pay(1, 2, 30), Stated::pay(2, 1, 5)],
    )
}

/// Whether a payment of 30 is above a balance of 20. It is: no payments that are added, whatever they give back, let an
/// account of 20 settle it.
pub fn never_funded(alloc: Global) -> Result<bool, OutOfMemory>
    ensures above { IfOk result (λ above. above ≡ true) }
    ensures never { OnOk result ((more : Items PaymentOf) → Settled nat_eq sequenced_rules
        (λ _. record { balance = 20; nonce = 0 })
        (touches payment_changes (record { from = 1; to = 2; amount = 30; nonce = 0 } ∷ more)) → ⊥) }
{
    let payment = Payment {
        from: 1,
        to: 2,
        amount: 30,
        nonce: 0,
    };
    overdraws(alloc, &[payment], 1, 20)
}

/// A payment that the account of 10 affords.
fn first() -> Payment
    ensures { result ≡ first }
{
    Payment {
        from: 1,
        to: 2,
        amount: 6,
        nonce: 0,
    }
}

/// One that it doesn't afford behind the first.
fn second() -> Payment
    ensures { result ≡ second }
{
    Payment {
        from: 1,
        to: 2,
        amount: 5,
        nonce: 1,
    }
}

/// What the two accounts are read as: one of 10, and none.
fn reads(alloc: Global) -> Result<Vec<Option<Sequenced>>, Unmet>
    ensures { IfOk result (λ reads. reads.items ≡ Some (record { balance = 10; nonce = 0 }) ∷ None ∷ []) }
{
    let mut reads = Vec::new(alloc);
    reads.push(Some(Sequenced {
        balance: 10,
        nonce: 0,
    }))?;
    reads.push(None)?;
    Ok(reads)
}

/// A selection over the two accounts, which stands for no payments.
fn opened(alloc: Global) -> Result<Selection<u8, Sequenced>, Unmet>
    ensures opened { IfOk result (λ selection. selection ≡ (two_keys, opening)) }
    ensures stands { IfOk result (λ selection. StandsOver selection.1 []) }
{
    let mut selection = Selection::with_seed(alloc, 7);
    selection.touch(alloc, &[first(), second()])?;
    match selection.register(reads(alloc)?) {
        Ok(()) => Ok(selection),
        Err(_) => Err(Unmet::Memory),
    }
}

/// Puts payments before a selection over the two accounts: the verdicts on all of them, or on those before memory was
/// wanting.
fn choose(
    alloc: Global,
    selection: &mut Selection<u8, Sequenced>,
    payments: &[Payment],
) -> List<bool>
    requires opened { selection.old ≡ (two_keys, opening) }
    requires stands { StandsOver selection.old.1 [] }
    requires payments { payments.now ≡ candidates }
    ensures keys { selection.new.0 ≡ two_keys }
    ensures reads { AreReadBy nat_eq opening selection.new.1 }
    ensures right { AreRight selection.new.1 (take (length result) candidates) result }
{
    match selection.apply(alloc, payments) {
        Ok(verdicts) => List::from_vec(verdicts),
        Err(Stopped { verdicts }) => verdicts,
    }
}

/// The slots of the first payment, by a plan of it over the two accounts.
fn planned<R: Threads + Sync>(rt: &R, alloc: Global) -> Result<Vec<Slot<Sequenced>>, Unmet>
    ensures { IfOk result (λ slots. ArePlanned slots.items) }
{
    let plan: Plan<u8, Sequenced> = Plan::with_seed(rt, alloc, &[first()], 9, &Sequential)?;
    let reads = reads(alloc)?;
    Ok(plan.settle(rt, alloc, &reads, &Sequential)?)
}

/// The slots of a selection that took the first payment alone: they settle it, and each plan of it has the same.
fn slots_of<R: Threads + Sync>(
    rt: &R,
    alloc: Global,
    selection: Selection<u8, Sequenced>,
) -> Result<Vec<Slot<Sequenced>>, Unmet>
    requires keys { selection.0 ≡ two_keys }
    requires reads { AreReadBy nat_eq opening selection.1 }
    requires stands { StandsOver selection.1 (touches payment_changes (first ∷ [])) }
    ensures same { IfOk result (λ slots. (theirs : Items (SlotOf SequencedOf)) → ArePlanned theirs
        → SameSlots nat_eq same_account two_keys slots.items two_keys theirs) }
    ensures settled { IfOk result (λ slots. SettlesFirst slots.items) }
{
    Ok(selection.settle(rt, alloc, &Sequential)?)
}

/// Whether the first of two was taken, and the second wasn't.
fn is_first_taken(verdicts: &[bool]) -> bool
    ensures { IsTrue result → verdicts.now ≡ true ∷ false ∷ [] }
{
    match verdicts {
        [true, false] => true,
        _ => false,
    }
}

/// The slots of one payment, by a selection that took it and by a plan of it.
#[derive(Debug, Drop)]
pub struct Both {
    pub chosen: Vec<Slot<Sequenced>>,
    pub planned: Vec<Slot<Sequenced>>,
}

/// Settles a payment that was chosen before one that wasn't, and the same payment by a plan: the slots are the same.
pub fn both_ways<R: Threads + Sync>(rt: &R, alloc: Global) -> Result<Both, Unmet>
    ensures { IfOk result (λ both. SameSlots nat_eq same_account two_keys both.chosen.items
        two_keys both.planned.items) }
{
    let mut selection = opened(alloc)?;
    let verdicts = choose(alloc, &mut selection, &[first(), second()]);
    if !is_first_taken(verdicts.as_slice()) {
        return Err(Unmet::Memory);
    }
    let chosen = slots_of(rt, alloc, selection)?;
    let planned = planned(rt, alloc)?;
    Ok(Both { chosen, planned })
}

/// The slots of both payments, by a plan of them over the two accounts. They aren't settled: an offence of some key is
/// named, or memory is wanting.
pub fn unaffordable<R: Threads + Sync>(
    rt: &R,
    alloc: Global,
) -> Result<Result<Vec<Slot<Sequenced>>, PlanFault<u8>>, Unmet>
    ensures { IfOk result (λ settled. IfErr settled FailsBoth) }
{
    let plan: Plan<u8, Sequenced> = Plan::with_seed(
        rt,
        alloc,
        &[first(), second()],
        9,
        &Sequential,
    )?;
    let reads = reads(alloc)?;
    Ok(plan.settle(rt, alloc, &reads, &Sequential))
}
