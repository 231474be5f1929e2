// What the library answers of a vector's parts. A part is reached by four steps, each an accessor and an index, by the numbers that
// tools/molecule_vectors.py gives the accessors. Each number stands here once, beside its accessor: an enum of them would say it twice.
use arithmetic::little_endian;
use transaction::fields;

fn step(s: &[u8], accessor: u8, i: usize) -> &[u8] {
    match accessor {
        1 => molecule::content(s),
        2 => molecule::item(s, i),
        3 => molecule::entry(s, i),
        4 => molecule::field(s, 5, i),
        5 => molecule::fix_item(s, 4, i),
        6 => molecule::fix_item(s, 36, i),
        7 => molecule::fix_item(s, 37, i),
        10 => fields::cell_dep(s, i),
        11 => fields::header_dep(s, i),
        12 => fields::input(s, i),
        13 => fields::output(s, i),
        14 => fields::output_data(s, i),
        15 => fields::witness(s, i),
        20 => fields::code_hash(s),
        21 => fields::args(s),
        22 => fields::lock(s),
        23 => fields::type_script(s),
        24 => fields::previous_output(s),
        25 => fields::tx_hash(s),
        26 => fields::out_point(s),
        27 => fields::record_output(s),
        28 => fields::record_data(s),
        _ => s,
    }
}

fn shannons(output: &[u8]) -> u64 {
    arithmetic::amount::low(fields::capacity(output).0)
}

// It picks an accessor by its number, so it is no conversion of the bytes.
fn number(s: &[u8], accessor: u8) -> u64 {
    match accessor {
        1 => u64::from(molecule::word(s, 0)),
        2 => u64::from(molecule::item_count(s)),
        3 => u64::from(molecule::fix_count(s)),
        4 => u64::from(fields::hash_type(s)),
        5 => shannons(s),
        6 => fields::since(s),
        7 => u64::from(fields::index(s)),
        8 => u64::from(fields::dep_type(s)),
        10 => u64::from(fields::version(s)),
        11 => u64::from(fields::cell_dep_count(s)),
        12 => u64::from(fields::header_dep_count(s)),
        13 => u64::from(fields::input_count(s)),
        14 => u64::from(fields::output_count(s)),
        15 => u64::from(fields::output_data_count(s)),
        16 => u64::from(fields::witness_count(s)),
        _ => s.len() as u64,
    }
}

pub fn is_as_expected(s: &[u8], expected: &[u8]) -> bool {
    let mut part = s;
    for (accessor, i) in [(0, 1), (2, 3), (4, 5), (6, 7)] {
        let index = usize::from(little_endian::byte(expected, i));
        part = step(part, little_endian::byte(expected, accessor), index);
    }
    match little_endian::byte(expected, 8) {
        0 => part == molecule::part(expected, 9, expected.len()),
        accessor => number(part, accessor) == little_endian::u64_at(expected, 9),
    }
}
