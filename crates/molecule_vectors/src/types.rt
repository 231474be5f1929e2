// The types of the vectors, by the numbers that tools/molecule_vectors.py gives them, and the library's reader for each.
use molecule::{BytesVec, Entity};

#[derive(Clone, Copy, Debug, PartialEq, Eq)]
pub enum Kind {
    Uint32,
    Bytes,
    Uint32Vec,
    BytesVec,
    MixedType,
    BytesVecOpt,
    Transaction,
    Script,
    CellOutput,
    Records,
    TokenCells,
    OutPoints,
    CellDeps,
}

// The vectors of no known type are read as of one that may be empty.
impl From<u8> for Kind {
    fn from(number: u8) -> Kind {
        match number {
            0 => Kind::Uint32,
            1 => Kind::Bytes,
            2 => Kind::Uint32Vec,
            3 => Kind::BytesVec,
            4 => Kind::MixedType,
            5 => Kind::BytesVecOpt,
            6 => Kind::Transaction,
            7 => Kind::Script,
            8 => Kind::CellOutput,
            9 => Kind::Records,
            10 => Kind::TokenCells,
            11 => Kind::OutPoints,
            12 => Kind::CellDeps,
            _ => Kind::BytesVecOpt,
        }
    }
}

impl Kind {
    // Whether the library reads s as of this type.
    pub fn reads(self, s: &[u8]) -> bool {
        match self {
            Kind::Uint32 => s.len() == 4,
            Kind::Bytes => molecule::is_bytes(s),
            Kind::Uint32Vec => molecule::is_fixvec(s, 4),
            Kind::BytesVec => molecule::is_bytes_vec(s),
            Kind::MixedType => is_mixed_type(s),
            Kind::BytesVecOpt => Option::<BytesVec>::is(s),
            Kind::Transaction => transaction::is_transaction(s),
            Kind::Script => transaction::is_script(s),
            Kind::CellOutput => transaction::is_output(s),
            Kind::Records => transaction::is_records(s),
            Kind::TokenCells => transaction::is_token_cells(s),
            Kind::OutPoints => transaction::is_out_points(s),
            Kind::CellDeps => transaction::is_cell_deps(s),
        }
    }
}

// The table of RFC 0008's example: Bytes, byte, Uint32, Byte3, Bytes.
fn is_mixed_type(s: &[u8]) -> bool {
    molecule::has_items(s, 5)
        && molecule::is_bytes(molecule::field(s, 5, 0))
        && molecule::field_len(s, 5, 1) == 1
        && molecule::field_len(s, 5, 2) == 4
        && molecule::field_len(s, 5, 3) == 3
        && molecule::is_bytes(molecule::field(s, 5, 4))
}
