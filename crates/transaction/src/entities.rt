// The tables as types of their own, so that a list, a pair or an optional one of them is tested by `molecule`'s functions for any type.
ghost use Rattle.std.specs.Prelude.{◌≡◌};
ghost use Rattle.transaction.specs.Ckb as ckb;

use molecule::Entity;

pub struct OutPoint;

#[tactic(auto, using(crate::proofs::Tests::tests))]
impl Entity for OutPoint {
    ghost ty = { ckb.OutPoint };

    fn is(s: &[u8]) -> bool {
        s.len() == 36
    }
}

pub struct Script;

impl Entity for Script {
    ghost ty = { ckb.Script };

    fn is(s: &[u8]) -> bool {
        crate::is_script(s)
    }
}

pub struct CellOutput;

impl Entity for CellOutput {
    ghost ty = { ckb.CellOutput };

    fn is(s: &[u8]) -> bool {
        crate::is_output(s)
    }
}

pub struct RawTransaction;

impl Entity for RawTransaction {
    ghost ty = { ckb.RawTransaction };

    fn is(s: &[u8]) -> bool {
        crate::is_raw_transaction(s)
    }
}

pub struct Transaction;

impl Entity for Transaction {
    ghost ty = { ckb.Transaction };

    fn is(s: &[u8]) -> bool {
        crate::is_transaction(s)
    }
}

pub struct TokenCell;

impl Entity for TokenCell {
    ghost ty = { ckb.TokenCell };

    fn is(s: &[u8]) -> bool {
        crate::is_token_cell(s)
    }
}

pub struct Record;

impl Entity for Record {
    ghost ty = { ckb.Record };

    fn is(s: &[u8]) -> bool {
        crate::is_record(s)
    }
}
