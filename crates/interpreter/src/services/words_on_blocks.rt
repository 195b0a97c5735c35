//! The block words.
ghost use Rattle.std.specs.Prelude.{◌≡◌, ℕ};
ghost use Rattle.interpreter.specs.Stops.{fault_of, fault_count, block_count};
ghost use Rattle.interpreter.specs.State.{fault_of as block_fault_of};

use crate::fault::Fault;
use crate::forth::Forth;
use block_words::BlockFault;
use sector_disk::SectorDevice;
use system_words::words::BlockWord;

/// The fault of a word that the blocks refused.
pub(crate) fn block_fault(fault: BlockFault) -> Fault
    ensures fault { fault_of result ≡ block_fault_of fault }
    ensures tells { (count : ℕ) → fault_count result count ≡ block_count fault count }
{
    match fault {
        BlockFault::NoBlock => Fault::NoBlock,
        BlockFault::NoBuffer => Fault::NoBuffer,
        BlockFault::Device => Fault::Device,
        BlockFault::Closed => Fault::Closed,
        BlockFault::Memory => Fault::Memory,
    }
}

impl<D: SectorDevice> Forth<D> {
    ghost use Rattle.system_words.specs.declared.words.BlockWord.TheVariants.{Block, Buffer, Flush, SaveBuffers, Update};
    ghost use Rattle.interpreter.specs.Blocking.{on_blocks};
    ghost use Rattle.interpreter.specs.ServiceContract.{Consults, ContinuesAlone};

    /// A word on blocks.
    pub(crate) fn on_blocks(&mut self, word: BlockWord) -> Result<(), Fault>
        ensures consults { Consults (λ a c x. on_blocks word c x) result self.old self.new }
        ensures continues { ContinuesAlone result self.old self.new }
    {
        match word {
            BlockWord::Block => self.block(),
            BlockWord::Buffer => self.buffer(),
            BlockWord::Flush => self.flush(),
            BlockWord::SaveBuffers => self.save_buffers(),
            BlockWord::Update => self.update(),
        }
    }

    /// `BLOCK`.
    fn block(&mut self) -> Result<(), Fault>
        ensures consults { Consults (λ a c x. on_blocks Block c x) result self.old self.new }
        ensures continues { ContinuesAlone result self.old self.new }
    {
        match self.stack.pop() {
            Ok(u) => match self.blocks.block(&mut self.space, u) {
                Ok(address) => {
                    self.leave(address);
                    Ok(())
                }
                Err(fault) => Err(block_fault(fault)),
            },
            Err(_) => Err(Fault::StackEmpty),
        }
    }

    /// `BUFFER`.
    fn buffer(&mut self) -> Result<(), Fault>
        ensures consults { Consults (λ a c x. on_blocks Buffer c x) result self.old self.new }
        ensures continues { ContinuesAlone result self.old self.new }
    {
        match self.stack.pop() {
            Ok(u) => match self.blocks.buffer(&mut self.space, u) {
                Ok(address) => {
                    self.leave(address);
                    Ok(())
                }
                Err(fault) => Err(block_fault(fault)),
            },
            Err(_) => Err(Fault::StackEmpty),
        }
    }

    /// `UPDATE`.
    fn update(&mut self) -> Result<(), Fault>
        ensures consults { Consults (λ a c x. on_blocks Update c x) result self.old self.new }
        ensures continues { ContinuesAlone result self.old self.new }
    {
        match self.blocks.update() {
            Ok(()) => Ok(()),
            Err(fault) => Err(block_fault(fault)),
        }
    }

    /// `SAVE-BUFFERS`.
    fn save_buffers(&mut self) -> Result<(), Fault>
        ensures consults { Consults (λ a c x. on_blocks SaveBuffers c x) result self.old self.new }
        ensures continues { ContinuesAlone result self.old self.new }
    {
        match self.blocks.save_buffers(&self.space) {
            Ok(()) => Ok(()),
            Err(fault) => Err(block_fault(fault)),
        }
    }

    /// `FLUSH`.
    fn flush(&mut self) -> Result<(), Fault>
        ensures consults { Consults (λ a c x. on_blocks Flush c x) result self.old self.new }
        ensures continues { ContinuesAlone result self.old self.new }
    {
        match self.blocks.flush(&self.space) {
            Ok(()) => Ok(()),
            Err(fault) => Err(block_fault(fault)),
        }
    }
}
