//! Expressions of rows and of instructions. They lie in the section that they were read from, so
//! `UnwindExpression::get` returns no error for them.
ghost use Rattle.gimli_cfi.specs.Words.{IsFdeOf};

use gimli_cfi::{
    BaseAddresses, CallFrameInstruction, CfaRule, Expression, FrameDescriptionEntry, Reader,
    Register, RegisterRule, Result, UnwindContext, UnwindContextStorage, UnwindSection,
    row_by_scan,
};

/// The expression that computes the CFA of an address; `None` if it is a register and an offset.
pub fn cfa_expression<R: Reader, Section: UnwindSection<R>, S: UnwindContextStorage<R::Offset>>(
    section: &Section,
    bases: &BaseAddresses,
    ctx: &mut UnwindContext<R::Offset, S>,
    address: u64,
) -> Result<Option<Expression<R>>> {
    let row = row_by_scan(section, bases, ctx, address)?;
    let CfaRule::Expression(expression) = *row.cfa() else {
        return Ok(None);
    };
    let Ok(bytes) = expression.get(section) else {
        unreachable!()
    };
    Ok(Some(bytes))
}

/// The expression that computes the address where a register is saved; `None` if the register has
/// another rule, or none.
pub fn place_expression<R: Reader, Section: UnwindSection<R>, S: UnwindContextStorage<R::Offset>>(
    section: &Section,
    bases: &BaseAddresses,
    ctx: &mut UnwindContext<R::Offset, S>,
    address: u64,
    register: Register,
) -> Result<Option<Expression<R>>> {
    let row = row_by_scan(section, bases, ctx, address)?;
    let Some(RegisterRule::Expression(expression)) = row.register(register) else {
        return Ok(None);
    };
    let Ok(bytes) = expression.get(section) else {
        unreachable!()
    };
    Ok(Some(bytes))
}

/// The expression of an FDE's first instruction, if that is `DW_CFA_def_cfa_expression`.
pub fn first_expression<R: Reader, Section: UnwindSection<R>>(
    section: &Section,
    bases: &BaseAddresses,
    fde: &FrameDescriptionEntry<R>,
) -> Result<Option<Expression<R>>>
    requires { IsFdeOf R.position (Section.view section.now).position fde.now }
{
    let mut instructions = fde.instructions(section, bases);
    let Some(CallFrameInstruction::DefCfaExpression { expression }) = instructions.next()? else {
        return Ok(None);
    };
    let Ok(bytes) = expression.get(section) else {
        unreachable!()
    };
    Ok(Some(bytes))
}
