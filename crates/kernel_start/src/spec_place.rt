//! `SpecPlace`, where the spec of a job's kernel stands.
ghost use Rattle.std.specs.Prelude.{◌≡◌, None, Err, IfOk, IfErr, option_map};
ghost use Rattle.kernel_start.specs.Finding.{kernel_name, kernel_folder, spec_in, Finds, IsIn, IsSpecPlace};

use crate::KernelFault;
use jtext::{NoMemory, Text, field, string_at};
use kspec::good_name;
use nb_model::Notebook;
use std::alloc::Global;
use words::Ask;

/// Where the spec of a kernel stands.
#[derive(Debug, Drop)]
pub(crate) struct SpecPlace {
    /// The folder of its kernel.
    pub(crate) folder: Text,
    /// The file `kernel.json` in it.
    pub(crate) path: Text,
}

impl SpecPlace {
    /// The place of the spec of the kernel that the words name, or else the notebook.
    pub(crate) fn of(
        alloc: Global,
        ask: &Ask,
        notebook: &Notebook,
    ) -> Result<SpecPlace, KernelFault>
        ensures ok { IfOk result (IsSpecPlace ask.now notebook.now) }
        ensures err { IfErr result (λ e. Finds ask.now notebook.now None (Err e)) }
    {
        let Some(name) = name_of(ask, notebook) else {
            return Err(KernelFault::NoName);
        };
        if !good_name(name) {
            return Err(KernelFault::BadName);
        }
        Ok(place_of(alloc, &ask.kernel_path, name)?)
    }
}

fn name_of<'a>(ask: &'a Ask, notebook: &'a Notebook) -> Option<&'a Text>
    ensures { option_map (λ name. name.now) result ≡ kernel_name ask.now notebook.now }
{
    match &ask.kernel {
        Some(name) => Some(name),
        None => match field(&notebook.metadata, "kernelspec") {
            Some(kernel) => string_at(kernel, "name"),
            None => None,
        },
    }
}

/// The place of the spec of that name in the folder of kernels.
fn place_of(alloc: Global, kernels: &Text, name: &Text) -> Result<SpecPlace, NoMemory>
    ensures { IfOk result (IsIn kernels.now name.now) }
{
    let folder = folder_of(alloc, kernels, name)?;
    let path = path_of(alloc, &folder)?;
    Ok(SpecPlace { folder, path })
}

fn folder_of(alloc: Global, kernels: &Text, name: &Text) -> Result<Text, NoMemory>
    ensures { IfOk result (λ folder. folder ≡ kernel_folder kernels.now name.now) }
{
    let (kernels, name) = (kernels.as_str(), name.as_str());
    Ok(Text::of_string(format!(in alloc; "{kernels}/{name}")?))
}

fn path_of(alloc: Global, folder: &Text) -> Result<Text, NoMemory>
    ensures { IfOk result (λ path. path ≡ spec_in folder.now) }
{
    let folder = folder.as_str();
    Ok(Text::of_string(format!(in alloc; "{folder}/kernel.json")?))
}
