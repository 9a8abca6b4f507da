//! `State`, the variables of a toy kernel.
ghost use Rattle.std.specs.Prelude.{◌≡◌, ◌<◌, [], length};
ghost use Rattle.std.specs.Prelude.{position, option_map, IfSome, OnOk};
ghost use Rattle.std.specs.Str.{bytes_eq};
ghost use Rattle.toy_lang.specs.Variables.{value_of, with_variable};

use jtext::{List, NoMemory, Text};
use std::alloc::Global;
use std::marker::Model;

/// Names with their values.
pub(crate) type Variables = List<(Text, Text)>;

/// The variables that texts have set. A contract sees them as a list of names with their values.
#[derive(Debug, Drop)]
pub struct State {
    alloc: Global,
    variables: Variables,
}

impl Model for State {
    ghost use Rattle.std.specs.Prelude.{List as Plain, ℕ};

    ghost Value = { Plain (Plain ℕ × Plain ℕ) };

    ghost view = { λ a. a.variables };
}

impl State {
    /// No variables. It keeps the allocator and takes no memory yet.
    pub fn new(alloc: Global) -> State
        ensures { result ≡ [] }
    {
        State {
            alloc,
            variables: Variables::new(alloc),
        }
    }

    /// The allocator that it keeps.
    pub(crate) fn alloc(&self) -> Global {
        self.alloc
    }

    /// The value of the variable with that name.
    pub(crate) fn value(&self, name: &str) -> Option<&Text>
        ensures { option_map (λ v. v.now) result ≡ value_of name.now self.now }
    {
        for variable in self.variables.as_slice() {
            if variable.0.as_str() == name {
                return Some(&variable.1);
            }
        }
        None
    }

    /// Sets a variable, in the place of the one with that name or last.
    pub(crate) fn set(&mut self, name: Text, value: Text) -> Result<(), NoMemory>
        ensures { OnOk result (self.new ≡ with_variable name value self.old) }
    {
        set_variable(&mut self.variables, name, value)
    }
}

fn set_variable(variables: &mut Variables, name: Text, value: Text) -> Result<(), NoMemory>
    ensures { OnOk result (variables.new ≡ with_variable name value variables.old) }
{
    match place_of_name(variables.as_slice(), name.as_str()) {
        Some(i) => {
            let _ = variables.put(i, (name, value));
            Ok(())
        }
        None => variables.push((name, value)),
    }
}

fn place_of_name(variables: &[(Text, Text)], name: &str) -> Option<usize>
    ensures place { result ≡ position (λ v. bytes_eq v.0 name.now) variables.now }
    ensures within { IfSome result (λ i. i < length variables.now) }
{
    variables.iter().position(|v| v.0.as_str() == name)
}
