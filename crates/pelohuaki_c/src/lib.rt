// The calls as C and Rust link them, under the names that `pelohuaki_archive` exports. A call answers document 01's
// refusal number, 0 where nothing is refused, and puts the rest of its answer into `told`, as many cells of it as are lent.
#![tactic(auto)]

ghost use Rattle.scope.specs.Refusals.{record_told, truth_told, spell_told};
ghost use Rattle.scope.specs.Wire.{record_at, read_held};
ghost use Rattle.scope.specs.Writing.{wrote};
ghost use Rattle.scope.specs.Judging.{judged};
ghost use Rattle.scope.specs.Deciding.{decided};
ghost use Rattle.scope.specs.Building.{built};
ghost use Rattle.scope.specs.Running.{ran};
ghost use Rattle.scope.specs.Words.{spelt};
ghost use Rattle.importing.specs.Given.{question_given, import_given};
ghost use Rattle.lent.specs.Told.{Gives, ReadsInto, WritesInto, ImportsInto, DecidesInto, BuildsInto};
ghost use Rattle.lent.specs.Lent.{lent_question};
ghost use Rattle.pelohuaki_c.specs.Bounds.{bounds_told};

use importing::answer::BOUNDS;
use lent::{copy_parts, tell, tell_import};
use scope::{Question, Refusal};

pub fn pelohuaki_record_at(bytes: &[u8], at: usize, told: &mut [u64]) -> u64
    ensures { Gives 4 (record_told (record_at bytes.now at)) told.old result told.new }
{
    tell(&records::record_at(bytes, at), told)
}

pub fn pelohuaki_read(
    bytes: &[u8],
    codes: &mut [u8],
    coefficients: &mut [i32],
    constants: &mut [i32],
    told: &mut [u64],
) -> u64
    ensures { ReadsInto (read_held bytes.now) codes.old coefficients.old constants.old told.old result codes.new coefficients.new constants.new told.new }
{
    let mut question = Question::empty();
    if let Err(refusal) = reading::read_into(bytes, &mut question) {
        return tell(&Err::<Question, Refusal>(refusal), told);
    }
    copy_parts(
        &question.codes,
        &question.coefficients,
        &question.constants,
        codes,
        coefficients,
        constants,
    );
    tell(&question, told)
}

pub fn pelohuaki_write(
    n: u8,
    codes: &[u8],
    coefficients: &[i32],
    constants: &[i32],
    bytes: &mut [u8],
    told: &mut [u64],
) -> u64
    ensures { WritesInto (wrote (lent_question n codes.now coefficients.now constants.now) bytes.old) told.old result bytes.new told.new }
{
    let mut question = Question::empty();
    question.n = n;
    copy_parts(
        codes,
        coefficients,
        constants,
        &mut question.codes,
        &mut question.coefficients,
        &mut question.constants,
    );
    tell(&writing::write(&question, bytes), told)
}

pub fn pelohuaki_import(
    text: &[u8],
    codes: &mut [u8],
    coefficients: &mut [i32],
    constants: &mut [i32],
    told: &mut [u64],
) -> u64
    ensures { ImportsInto (question_given (import_given text.now)) (bounds_told (import_given text.now)) codes.old coefficients.old constants.old told.old result codes.new coefficients.new constants.new told.new }
{
    match importing::import(text) {
        Err(refusal) => tell_import(&Err(refusal), &[0; BOUNDS], told),
        Ok(import) => {
            copy_parts(
                &import.question.codes,
                &import.question.coefficients,
                &import.question.constants,
                codes,
                coefficients,
                constants,
            );
            tell_import(&Ok(import.question), &import.names, told)
        }
    }
}

pub fn pelohuaki_judge(bytes: &[u8], values: &[u64], told: &mut [u64]) -> u64
    ensures { Gives 1 (truth_told (judged bytes.now values.now)) told.old result told.new }
{
    tell(&judge::judge(bytes, values), told)
}

pub fn pelohuaki_decide(
    bytes: &[u8],
    keys: &mut [i32],
    path: &mut [u16],
    word: &mut [u8],
    told: &mut [u64],
) -> u64
    ensures { DecidesInto (decided bytes.now keys.old path.old word.old) told.old result keys.new path.new word.new told.new }
{
    tell(&decide::decide(bytes, keys, path, word), told)
}

pub fn pelohuaki_build(bytes: &[u8], keys: &mut [i32], table: &mut [u16], told: &mut [u64]) -> u64
    ensures { BuildsInto (built bytes.now keys.old table.old) told.old result keys.new table.new told.new }
{
    tell(&build::build(bytes, keys, table), told)
}

pub fn pelohuaki_run(n: usize, cells: &[u16], word: &[u8], told: &mut [u64]) -> u64
    ensures { Gives 1 (truth_told (ran n cells.now word.now)) told.old result told.new }
{
    tell(&words::run(n, cells, word), told)
}

pub fn pelohuaki_spell(n: usize, variable: usize, word: &[u8], told: &mut [u64]) -> u64
    ensures { Gives 1 (spell_told (spelt n variable word.now)) told.old result told.new }
{
    tell(&words::spell(n, variable, word), told)
}
