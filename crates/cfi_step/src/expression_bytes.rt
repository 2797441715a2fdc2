//! The bytes of an expression, by its place in the section.
ghost use Rattle.std.specs.Prelude.{◌≡◌, IfOk};
ghost use Rattle.cfi_read_core.specs.ExpressionPlaces.{expression_bytes, expression_extent};
ghost use Rattle.cfi_read_core.specs.MappedInstructions.{map_expression};
ghost use Rattle.cfi_read_core.specs.ReadFunctions.{skip, split, unexpected_eof};
ghost use Rattle.cfi_read_core.specs.ReaderCalls.{IsPartOf, ReadsBy, ReadsValue};
ghost use Rattle.cfi_read_core.specs.ReaderCalls.{extent_of, map_ok, read_at};

use gimli_cfi::{
    _UnwindSectionPrivate, Error, Expression, Reader, ReaderOffset, ReaderOffsetId, Result,
    UnwindExpression,
};

/// The bytes of an expression of the section, whose place may be counted otherwise than the
/// section's reader does.
///
/// Fails as `UnwindExpression::get`. Copies nothing.
pub(crate) fn bytes_of<R: Reader, Section: _UnwindSectionPrivate<R>, T: ReaderOffset>(
    expression: &UnwindExpression<T>,
    section: &Section,
) -> Result<Expression<R>>
    ensures bytes { map_ok (expression_extent R.position) result
        ≡ read_at (Section.view section.now).position
        (expression_bytes (map_expression T.number expression.now)) }
    ensures part { IfOk result (λ e.
        IsPartOf (R.position e.0) (Section.view section.now).position) }
{
    let mut input = *section.section();
    Ok(Expression(split_expression(expression, &mut input)?))
}

/// Skips to an expression, and splits off its bytes.
#[tactic(auto, unfolding(cfi_read_core::specs::ExpressionPlaces::expression_bytes))]
fn split_expression<R: Reader, T: ReaderOffset>(
    expression: &UnwindExpression<T>,
    input: &mut R,
) -> Result<R>
    ensures read { ReadsBy R.position (λ r. extent_of (R.position r))
        (expression_bytes (map_expression T.number expression.now)) input.old result input.new }
    ensures part { IfOk result (λ r. IsPartOf (R.position r) (R.position input.old)) }
{
    skip_by(input, expression.offset)?;
    split_by(input, expression.length)
}

/// Skips bytes.
fn skip_by<R: Reader, T: ReaderOffset>(input: &mut R, length: T) -> Result<()>
    ensures { ReadsValue R.position (skip (T.number length)) input.old result input.new }
{
    match R::Offset::from_u64(length.into_u64()) {
        Ok(length) => input.skip(length),
        Err(_) => Err(too_short(input)),
    }
}

/// Splits off bytes.
fn split_by<R: Reader, T: ReaderOffset>(input: &mut R, length: T) -> Result<R>
    ensures read { ReadsBy R.position (λ r. extent_of (R.position r)) (split (T.number length))
        input.old result input.new }
    ensures part { IfOk result (λ r. IsPartOf (R.position r) (R.position input.old)) }
{
    match R::Offset::from_u64(length.into_u64()) {
        Ok(length) => input.split(length),
        Err(_) => Err(too_short(input)),
    }
}

/// The error where fewer bytes are left than are asked for.
fn too_short<R: Reader>(input: &R) -> Error
    ensures { result ≡ unexpected_eof (R.position input.now).place }
{
    Error::UnexpectedEof(ReaderOffsetId(input.place().into_u64()))
}
