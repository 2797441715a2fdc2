//! An address by the function whose bytes have it.
ghost use Rattle.std.specs.Prelude.{◌≡◌, ◌≤◌, option_map};
ghost use Rattle.cfi_elf.specs.FunctionPlaces.{place_in_function, place_view};
ghost use Rattle.cfi_elf.specs.Functions.{function_view};

use crate::functions::Function;

/// An address by the function whose bytes have it.
#[derive(Clone, Copy, Debug)]
pub struct FunctionPlace<'input> {
    /// The name of the function, which is not empty.
    pub name: &'input [u8],
    /// How many bytes the address is after the function's first.
    pub offset: u64,
}

/// The address by a function that begins at or before it; `None` where it is after the function's
/// last byte.
pub(crate) fn place_in_function<'input>(
    address: u64,
    function: &Function<'input>,
) -> Option<FunctionPlace<'input>>
    requires { function.now.address ≤ address }
    ensures { option_map place_view result
        ≡ place_in_function address (function_view function.now) }
{
    let offset = address - function.address;
    if offset < function.size {
        Some(FunctionPlace {
            name: function.name,
            offset,
        })
    } else {
        None
    }
}
