//! What an operation does (DWARF 5 section 2.5.1).
ghost use Rattle.std.specs.Prelude.{◌≡◌, ◌+◌, ◌-◌, nat_le, IfSome};
ghost use Rattle.std.specs.Option.{option_map};
ghost use Rattle.cfi_read_core.specs.ReaderCalls.{remaining};
ghost use Rattle.cfi_expression.specs.Frames.{frame_view};
ghost use Rattle.cfi_expression.specs.Evaluation.{effect, jump_target, obey, rotate};
ghost use Rattle.cfi_expression.specs.Evaluation.{some_if, step, swap};
ghost use Rattle.cfi_expression.specs.Stacks.{Acts};
ghost use Rattle.cfi_read_core.specs.ReaderCalls.{map_ok};

use crate::arithmetic::{low, one_of, two_of};
use crate::error::FrameError;
use crate::frame::{Frame, displaced, number_at, register_value};
use crate::memory::Memory;
use crate::operation::{Operation, StackOperation};
use crate::parse::parse_operation;
use crate::stack::Stack;
use cfi_read_core::{Reader, ReaderOffset};

/// Does the next operation of an expression, and stands after it or where it jumps to.
pub(crate) fn step<R: Reader, M: Memory>(
    frame: &Frame<'_, M>,
    expression: &R,
    input: &mut R,
    stack: &mut Stack,
) -> Result<(), FrameError>
    requires { (R.position input.old).source ≡ (R.position expression.now).source }
    ensures acts { Acts (λ _. (R.position input.new).place)
        (step (frame_view M.number_at frame.now) (R.position expression.now)
        (R.position input.old).place) stack.old result stack.new }
    ensures source { (R.position input.new).source ≡ (R.position expression.now).source }
{
    match parse_operation(input, frame.address_size) {
        Ok(operation) => obey(operation, frame, expression, input, stack),
        Err(error) => Err(FrameError::Unreadable(error)),
    }
}

/// Does an operation that was read.
fn obey<R: Reader, M: Memory>(
    operation: Operation,
    frame: &Frame<'_, M>,
    expression: &R,
    input: &mut R,
    stack: &mut Stack,
) -> Result<(), FrameError>
    requires { (R.position input.old).source ≡ (R.position expression.now).source }
    ensures acts { Acts (λ _. (R.position input.new).place)
        (obey (frame_view M.number_at frame.now) (R.position expression.now)
        (R.position input.old).place operation) stack.old result stack.new }
    ensures source { (R.position input.new).source ≡ (R.position expression.now).source }
{
    match operation {
        Operation::Stack(operation) => perform(operation, frame, stack),
        Operation::Skip(displacement) => jump(expression, input, displacement),
        Operation::Bra(displacement) => {
            if stack.pop()? == 0 {
                Ok(())
            } else {
                jump(expression, input, displacement)
            }
        }
    }
}

/// Does what an operation says to the stack.
fn perform<M: Memory>(
    operation: StackOperation,
    frame: &Frame<'_, M>,
    stack: &mut Stack,
) -> Result<(), FrameError>
    ensures { Acts (λ x. x) (effect (frame_view M.number_at frame.now) operation)
        stack.old result stack.new }
{
    match operation {
        StackOperation::Constant(constant) => stack.push(low(constant, frame.address_size)),
        StackOperation::RegisterOffset { register, offset } => {
            let value = register_value(frame.registers, register)?;
            stack.push(displaced(value, offset, frame.address_size))
        }
        StackOperation::Dereference(size) => {
            let address = stack.pop()?;
            let number = number_at(frame, address, size)?;
            stack.push(low(number, frame.address_size))
        }
        StackOperation::Unary(unary) => {
            let top = stack.pop()?;
            stack.push(one_of(unary, top, frame.address_size))
        }
        StackOperation::Binary(binary) => {
            let top = stack.pop()?;
            let second = stack.pop()?;
            stack.push(two_of(binary, second, top, frame.address_size)?)
        }
        StackOperation::Pick(index) => stack.push(stack.pick(index)?),
        StackOperation::Discard => {
            let _top = stack.pop()?;
            Ok(())
        }
        StackOperation::Swap => swap(stack),
        StackOperation::Rotate => rotate(stack),
        StackOperation::Nop => Ok(()),
        StackOperation::Unsupported(opcode) => Err(FrameError::UnsupportedOperation(opcode)),
    }
}

/// Exchanges the top two entries.
fn swap(stack: &mut Stack) -> Result<(), FrameError>
    ensures { Acts (λ x. x) swap stack.old result stack.new }
{
    let top = stack.pop()?;
    let second = stack.pop()?;
    stack.push(top)?;
    stack.push(second)
}

/// Makes the top entry the third, and the second and third the top two.
fn rotate(stack: &mut Stack) -> Result<(), FrameError>
    ensures { Acts (λ x. x) rotate stack.old result stack.new }
{
    let top = stack.pop()?;
    let second = stack.pop()?;
    let third = stack.pop()?;
    stack.push(top)?;
    stack.push(third)?;
    stack.push(second)
}

/// Jumps by so many bytes from the reader's place, within an expression or to its end.
///
/// Returns `FrameError::BadBranchTarget` if the jump leads out of the expression.
fn jump<R: Reader>(expression: &R, input: &mut R, displacement: i16) -> Result<(), FrameError>
    requires { (R.position input.old).source ≡ (R.position expression.now).source }
    ensures target { map_ok (λ _. (R.position input.new).place) result
        ≡ jump_target (R.position expression.now) (R.position input.old).place displacement }
    ensures source { (R.position input.new).source ≡ (R.position expression.now).source }
{
    let distance = u64::from(displacement.unsigned_abs());
    let target = if displacement.is_negative() {
        backward(expression, input, distance)
    } else {
        forward(*input, distance)
    };
    match target {
        Some(target) => {
            *input = target;
            Ok(())
        }
        None => Err(FrameError::BadBranchTarget(displacement)),
    }
}

/// The reader so many bytes before another, in an expression; `None` if it would begin before it.
fn backward<R: Reader>(expression: &R, input: &R, distance: u64) -> Option<R>
    requires { (R.position input.now).source ≡ (R.position expression.now).source }
    ensures place { option_map (λ r. (R.position r).place) result ≡
        some_if (nat_le ((R.position expression.now).place + distance)
        (R.position input.now).place) ((R.position input.now).place - distance) }
    ensures source { IfSome result (λ r. (R.position r).source ≡ (R.position input.now).source) }
{
    let place = input.place().into_u64();
    let first = expression.place().into_u64();
    if place < first || place - first < distance {
        return None;
    }
    forward(*expression, place - first - distance)
}

/// The reader so many bytes after another; `None` if fewer are left.
fn forward<R: Reader>(from: R, distance: u64) -> Option<R>
    ensures place { option_map (λ r. (R.position r).place) result ≡
        some_if (nat_le distance (remaining (R.position from)))
        ((R.position from).place + distance) }
    ensures source { IfSome result (λ r. (R.position r).source ≡ (R.position from).source) }
{
    let Ok(distance) = R::Offset::from_u64(distance) else {
        return None;
    };
    let mut target = from;
    match target.skip(distance) {
        Ok(()) => Some(target),
        Err(_error) => None,
    }
}
