// Who pays whom, by value: from eight balances to the table of payments, payer by receiver. Each debtor in order goes once along the
// creditors in order. No sum is formed, so no balance is too large: nothing is required of a caller.
#![tactic(auto)]

ghost use Rattle.std.specs.Prelude.{◌≡◌, map};
ghost use Rattle.rules.specs.Payments.{owes, owed, row, unpaid, settled};

// What a balance below zero owes; an unsigned number, since the least i64 has no opposite.
#[tactic(auto, using(crate::proofs::Signed::below_zero_owes))]
fn debt_of(balance: i64) -> u64
    ensures { result ≡ owes balance }
{
    balance.min(0).unsigned_abs()
}

// What a balance above zero is owed, and the same of all eight.
#[tactic(auto, using(crate::proofs::Signed::above_zero_owed))]
fn claim_of(balance: i64) -> u64
    ensures { result ≡ owed balance }
{
    balance.max(0).unsigned_abs()
}

fn claims_of(balances: [i64; 8]) -> [u64; 8]
    ensures { result ≡ map owed balances }
{
    balances.map(claim_of)
}

// What a debtor who owes x pays each of eight creditors; their claims are then what is unpaid.
#[tactic(auto, using(crate::proofs::Turns::none_paid, crate::proofs::Turns::all_unpaid))]
fn pay_row(x: u64, claims: &mut [u64; 8]) -> [u64; 8]
    ensures row { result ≡ row x claims.old }
    ensures claims { claims.new ≡ unpaid x claims.old }
{
    if x == 0 {
        return [0; 8];
    }
    let mut paid = [0; 8];
    let mut left = x;
    for c in 0..8 {
        let m = left.min(claims[c]);
        paid[c] = m;
        left -= m;
        claims[c] -= m;
    }
    paid
}

// The table of payments.
pub fn settle(balances: [i64; 8]) -> [[u64; 8]; 8]
    ensures { result ≡ settled balances }
{
    let mut table = [[0; 8]; 8];
    let mut claims = claims_of(balances);
    for d in 0..8 {
        table[d] = pay_row(debt_of(balances[d]), &mut claims);
    }
    table
}
