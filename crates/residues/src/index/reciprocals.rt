ghost use Rattle.std.specs.Prelude.{◌≡◌};
ghost use Rattle.residues.specs.Rest.{reciprocal};
ghost use Rattle.residues.specs.Tables.{ReciprocalTable};

use super::Index;

// At each place from 1 the number that it gives 1 with, modulo 127.
const RECIPROCALS: [u8; 127] = [
    0, 1, 64, 85, 32, 51, 106, 109, 16, 113, 89, 104, 53, 88, 118, 17, 8, 15, 120, 107, 108, 121,
    52, 116, 90, 61, 44, 80, 59, 92, 72, 41, 4, 77, 71, 98, 60, 103, 117, 114, 54, 31, 124, 65, 26,
    48, 58, 100, 45, 70, 94, 5, 22, 12, 40, 97, 93, 78, 46, 28, 36, 25, 84, 125, 2, 43, 102, 91,
    99, 81, 49, 34, 30, 87, 115, 105, 122, 33, 57, 82, 27, 69, 79, 101, 62, 3, 96, 73, 13, 10, 24,
    67, 29, 56, 50, 123, 86, 55, 35, 68, 47, 83, 66, 37, 11, 75, 6, 19, 20, 7, 112, 119, 110, 9,
    39, 74, 23, 38, 14, 111, 18, 21, 76, 95, 42, 63, 126,
];

// The rule of the table is tested once, where it is handed over.
fn entry(table: &[u8; 127], n: Index) -> u8
    requires { ReciprocalTable 127 table.now }
    ensures { result ≡ reciprocal 127 n.teeth }
{
    table[n.teeth as usize]
}

pub fn reciprocal_of(n: Index) -> u8
    ensures { result ≡ reciprocal 127 n.teeth }
{
    entry(&RECIPROCALS, n)
}
