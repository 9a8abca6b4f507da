//! `Kernel`, the kernel of a job.
ghost use Rattle.kspec.specs.KernelJson.{CanStart};

use crate::launch_path::path_from_root;
use crate::spec_place::SpecPlace;
use crate::{KernelFault, LaunchFault};
use jtext::Text;
use kspec::{Spec, SpecFault, argv, good_name, spec};
use nb_model::Notebook;
use std::alloc::Global;
use words::Ask;
use world::{Did, Disk, Kids, ReadFile};

/// The most bytes of a kernel's spec.
const MOST: u64 = 1_048_576;

/// How a kernel is started, and the folder of its spec.
#[derive(Debug, Drop)]
pub struct Kernel {
    /// What its `kernel.json` says.
    pub spec: Spec,
    /// The folder of that file.
    pub folder: Text,
    ghost starts: { CanStart spec },
}

impl Kernel {
    ghost use Rattle.std.specs.Prelude.{◌≡◌, ◌<◌, ℕ, List, Some, Err};
    ghost use Rattle.nb_model.specs.declared.notebook.Notebook as notebooks;
    ghost use Rattle.words.specs.declared.ask.Ask as asks;
    ghost use Rattle.world.specs.Counts.{DiskCause, ChildCause};
    ghost use Rattle.world.specs.Moments.{Told, Since};
    ghost use Rattle.world.specs.Parts.{IsOf, OnDisk, OnKids};
    ghost use Rattle.world.specs.Touched.{Spares};
    ghost use Rattle.kernel_start.specs.declared.launch_fault.LaunchFault.TheVariants as launch_fault;
    ghost use Rattle.kernel_start.specs.Finding.{Finds, FindsBy, IsFound, IsNotRead, IsOfBytes, IsSpecPlace};
    ghost use Rattle.kernel_start.specs.Launch.{from_root, Launches};

    /// The kernel that the words name, or else the notebook, by the file `kernel.json` in the folder
    /// of that name (jupyter_client, "Kernel specs"). Nothing is asked of the disk before the name
    /// is good, and then that file alone.
    pub fn find<W: Disk>(
        alloc: Global,
        w: &mut W,
        ask: &Ask,
        notebook: &Notebook,
    ) -> Result<Kernel, KernelFault>
        // Which answer comes when, with all that is asked of the disk; and which comes when where
        // no journal is told.
        ensures entries { Told (W.journal w.old) (W.journal w.new)
            (FindsBy ask.now notebook.now result) }
        ensures answer { IsFound ask.now notebook.now result }

        // No file is touched, and no other part of the world.
        ensures others { (path : List ℕ) →
            Told (W.journal w.old) (W.journal w.new) (Since (Spares path)) }
        ensures part { Told (W.journal w.old) (W.journal w.new) (Since (IsOf OnDisk)) }

        // A file can't be read only where a call of the disk failed.
        ensures cause { DiskCause (W.counts w.old) (W.counts w.new) (IsNotRead result) }
    {
        Kernel::look_up(alloc, w, ask, notebook)
    }

    /// The same, by its entries.
    fn look_up<W: Disk>(
        alloc: Global,
        w: &mut W,
        ask: &Ask,
        notebook: &Notebook,
    ) -> Result<Kernel, KernelFault>
        ensures entries { Told (W.journal w.old) (W.journal w.new)
            (FindsBy ask.now notebook.now result) }
        ensures answer { IsFound ask.now notebook.now result }
        ensures cause { DiskCause (W.counts w.old) (W.counts w.new) (IsNotRead result) }
    {
        let place = SpecPlace::of(alloc, ask, notebook)?;
        let answer = w.read_file(alloc, &place.path, MOST);
        Kernel::of_answer(alloc, answer, ask.interrupt, place)
    }

    /// What the disk's answer to the read of the spec gives.
    fn of_answer(
        alloc: Global,
        answer: ReadFile,
        interrupt: bool,
        place: SpecPlace,
    ) -> Result<Kernel, KernelFault>
        ensures { (a : asks.Ask) (n : notebooks.Notebook) → a.interrupt ≡ interrupt →
            IsSpecPlace a n place → Finds a n (Some answer) result }
    {
        let SpecPlace { folder, path } = place;
        match answer {
            ReadFile::Whole(bytes) => Kernel::of_bytes(alloc, bytes.bytes(), interrupt, folder),
            ReadFile::Big => Err(KernelFault::BadSpec(SpecFault::NotJson)),
            ReadFile::Failed => Err(KernelFault::NotRead { path }),
            ReadFile::NoMemory => Err(KernelFault::NoMemory),
        }
    }

    /// The kernel that the bytes of a spec in that folder give.
    fn of_bytes(
        alloc: Global,
        bytes: &[u8],
        interrupt: bool,
        folder: Text,
    ) -> Result<Kernel, KernelFault>
        ensures { IsOfBytes interrupt bytes.now folder result }
    {
        match spec(alloc, bytes, interrupt) {
            Ok(spec) => Ok(Kernel { spec, folder }),
            Err(SpecFault::NoMemory) => Err(KernelFault::NoMemory),
            Err(fault) => Err(KernelFault::BadSpec(fault)),
        }
    }

    /// Starts its program as the child of the job, in the folder `cwd`, with the variables of its
    /// spec. In the program's arguments the connection file's path is one from the root, where
    /// `here` is the working folder. The arguments are there before the child is asked for.
    pub fn start<W: Kids>(
        &self,
        alloc: Global,
        w: &mut W,
        number: u8,
        here: &Text,
        connection_path: &Text,
        cwd: &Text,
    ) -> Result<(), LaunchFault>
        requires { number < 16 }

        // Which entry it adds, by its answer, and where memory is refused none.
        ensures entries { Told (W.journal w.old) (W.journal w.new)
            (Launches self.now number (from_root here.now connection_path.now) cwd.now result) }
        ensures idle { result ≡ Err launch_fault.NoMemory →
            (W.journal w.new ≡ W.journal w.old) × (W.counts w.new ≡ W.counts w.old) }

        // No file is touched, and no other part of the world.
        ensures others { (path : List ℕ) →
            Told (W.journal w.old) (W.journal w.new) (Since (Spares path)) }
        ensures part { Told (W.journal w.old) (W.journal w.new) (Since (IsOf OnKids)) }

        // It fails only where the start of the child failed.
        ensures cause { ChildCause (W.counts w.old) (W.counts w.new)
            (result ≡ Err launch_fault.Failed) }
    {
        self.launch(alloc, w, number, here, connection_path, cwd)
    }

    /// The same, by its entries.
    #[tactic(auto, using(crate::proofs::LaunchLaws::has_program))]
    fn launch<W: Kids>(
        &self,
        alloc: Global,
        w: &mut W,
        number: u8,
        here: &Text,
        connection_path: &Text,
        cwd: &Text,
    ) -> Result<(), LaunchFault>
        requires { number < 16 }
        ensures entries { Told (W.journal w.old) (W.journal w.new)
            (Launches self.now number (from_root here.now connection_path.now) cwd.now result) }
        ensures idle { result ≡ Err launch_fault.NoMemory →
            (W.journal w.new ≡ W.journal w.old) × (W.counts w.new ≡ W.counts w.old) }
        ensures cause { ChildCause (W.counts w.old) (W.counts w.new)
            (result ≡ Err launch_fault.Failed) }
    {
        let file = path_from_root(alloc, here, connection_path)?;
        let words = argv(alloc, &self.spec, &file, &self.folder)?;
        match w.start(number, &words, &self.spec.env, cwd) {
            Did::Done => Ok(()),
            Did::Failed => Err(LaunchFault::Failed),
        }
    }
}
