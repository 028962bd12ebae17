// The held question of a sheet.
use crate::sheet::Sheet;
use scope::Question;

// A number by what stands on either side.
pub fn signed(plus: u64, minus: u64) -> i32 {
    let size = |side: u64| i32::try_from(side).unwrap_or(i32::MAX);
    size(plus).saturating_sub(size(minus))
}

fn codes_of(q: &Sheet) -> [u8; Question::NODES] {
    let mut codes = [0u8; Question::NODES];
    for (code, node) in codes.iter_mut().zip(q.nodes()) {
        *code = u8::from(*node);
    }
    codes
}

fn coefficients_of(q: &Sheet) -> [i32; Question::COEFFICIENTS] {
    let mut all = [0i32; Question::COEFFICIENTS];
    for (row, atom) in all.chunks_exact_mut(Question::VARIABLES).zip(q.atoms()) {
        let sides = atom.left.coefficients.iter().zip(&atom.right.coefficients);
        for (number, (left, right)) in row.iter_mut().zip(sides) {
            *number = signed(*left, *right);
        }
    }
    all
}

// A constant stands right of the sign, so its sides are the other way round.
fn constants_of(q: &Sheet) -> [i32; Question::ATOMS] {
    let mut all = [0i32; Question::ATOMS];
    for (number, atom) in all.iter_mut().zip(q.atoms()) {
        *number = signed(atom.right.constant, atom.left.constant);
    }
    all
}

pub fn question_of(q: &Sheet) -> Question {
    Question {
        n: u8::try_from(q.variables).unwrap_or(u8::MAX),
        codes: codes_of(q),
        coefficients: coefficients_of(q),
        constants: constants_of(q),
    }
}
