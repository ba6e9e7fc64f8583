//! Environment blocks of Windows, whose names and values are unchecked 16-bit units.
ghost use Rattle.std.specs.Prelude.{◌≡◌, ◌++◌, IfOk, OnOk};
ghost use Rattle.wtf8_uses.specs.Environment.{block, variable_units};

use std::alloc::{AllocError, Allocator};
use wtf8::Wtf8;

/// A variable of an environment.
#[derive(Clone, Copy)]
pub struct Variable<'a> {
    /// The units before the `=`.
    pub name: Wtf8<'a>,
    /// The units after the `=`.
    pub value: Wtf8<'a>,
}

/// The units of an environment block: name, `=`, value and a zero for each variable, then one more zero. Nothing is
/// escaped, so a reader of the block takes a zero inside a name or value for its end. If a request is refused, nothing
/// stays allocated.
pub fn environment_block<A: Allocator>(
    alloc: A,
    variables: &[Variable<'_>],
) -> Result<Vec<u16, A>, AllocError>
    ensures { IfOk result (λ units. units.items ≡ block variables.now) }
{
    let mut units = Vec::new(alloc);
    for variable in variables {
        push_variable(&mut units, *variable)?;
    }
    units.push(0)?;
    Ok(units)
}

/// Appends the units of a variable.
fn push_variable<A: Allocator>(
    units: &mut Vec<u16, A>,
    variable: Variable<'_>,
) -> Result<(), AllocError>
    ensures { OnOk result (units.new.items ≡ units.old.items ++ variable_units variable.entry) }
{
    variable.name.append_units(units)?;
    units.push(u16::from(b'='))?;
    variable.value.append_units(units)?;
    units.push(0)?;
    Ok(())
}
