//! Which of several functions that begin at one address gives the name.
ghost use Rattle.std.specs.Prelude.{◌≡◌, ◌==◌, map, not, option_map, position};
ghost use Rattle.cfi_elf.specs.BestNames.{best, better_of, binding_order, is_better, underscores};
ghost use Rattle.cfi_elf.specs.BestNames.{bytes_order, decided};
ghost use Rattle.cfi_elf.specs.Functions.{function_view};

use crate::constants::{STB_GLOBAL, STB_WEAK};
use crate::functions::Function;

/// The function with the best name, of several the first; `None` where there are no functions.
pub(crate) fn best_of<'input>(functions: &[Function<'input>]) -> Option<Function<'input>>
    ensures { option_map function_view result ≡ best (map function_view functions.now) }
{
    let mut best: Option<Function<'input>> = None;
    for function in functions {
        best = Some(better_of(best, function));
    }
    best
}

/// The function, if it is better than the best of those before it.
fn better_of<'input>(
    best: Option<Function<'input>>,
    function: &Function<'input>,
) -> Function<'input>
    ensures { function_view result
        ≡ better_of (option_map function_view best.entry) (function_view function.now) }
{
    match best {
        Some(best) => {
            if is_better(function, &best) {
                *function
            } else {
                best
            }
        }
        None => *function,
    }
}

/// Whether the function gives a better name than the other one, as `perf` chooses: one that has
/// bytes, then a global name, then one that isn't weak, then fewer underscores before the name, and
/// then the longer name.
fn is_better(function: &Function<'_>, other: &Function<'_>) -> bool
    ensures { result ≡ is_better (function_view function.now) (function_view other.now) }
{
    let is_longer = function.name.len() > other.name.len();
    let fewer = decided(
        underscores(function.name),
        underscores(other.name),
        is_longer,
    );
    let seen = decided(binding_order(function), binding_order(other), fewer);
    decided(bytes_order(function), bytes_order(other), seen)
}

/// Whether the first number is less, or, where both are the same, what else decides.
fn decided(number: usize, other: usize, otherwise: bool) -> bool
    ensures { result ≡ decided number other otherwise }
{
    if number == other {
        otherwise
    } else {
        number < other
    }
}

/// 0 for a function with bytes.
fn bytes_order(function: &Function<'_>) -> usize
    ensures { result ≡ bytes_order (function_view function.now) }
{
    if function.size == 0 { 1 } else { 0 }
}

/// 0 for a global name, 2 for a weak one.
fn binding_order(function: &Function<'_>) -> usize
    ensures { result ≡ binding_order (function_view function.now) }
{
    match function.binding {
        STB_GLOBAL => 0,
        STB_WEAK => 2,
        _ => 1,
    }
}

/// How many underscores the name begins with.
fn underscores(name: &[u8]) -> usize
    ensures { result ≡ underscores name.now }
{
    match first_other(name) {
        Some(count) => count,
        None => name.len(),
    }
}

/// The index of the first byte that is no underscore.
fn first_other(name: &[u8]) -> Option<usize>
    ensures { result ≡ position (λ byte. not (byte == 95)) name.now }
{
    name.iter().position(|byte| *byte != b'_')
}
