//! The model: of the named file, or generated.
ghost use Rattle.std.specs.Prelude.{◌≡◌, ◌≤◌, IfErr, IfOk, length};
ghost use Rattle.mn_gen.specs.Generated.{generated};
ghost use Rattle.mn_gen.specs.Made.{IsSize};
ghost use Rattle.mn_model.specs.Lawful.{IsLawful};
ghost use Rattle.mn_model.specs.declared.limits.TheConstants.{TEXT_BYTES};
ghost use Rattle.mn_outside.specs.Faults.{HasRisen};
ghost use Rattle.mn_driver.specs.Loads.{HasFewLines, IsOfText, Unloads, unfetched, unread};
ghost use Rattle.mn_driver.specs.Outputs.{IsUnread, input_of};
ghost use Rattle.mn_driver.specs.Runs.{IsTheModel, line_at};
ghost use Rattle.mn_driver.specs.Sources.{HasSize, Named, origin_of};

use crate::request::Source;
use mn_gen::make;
use mn_language::one_instance;
use mn_model::{Instance, Refusal, TEXT_BYTES, Which};
use mn_options::Wanted;
use mn_outside::{FetchFault, Files, fetch_all, line_count};
use mn_reader::read;
use mn_report::place_of;
use std::alloc::Global;

/// Why there is no instance.
#[derive(Clone, Copy)]
pub enum Unloaded {
    Failed,
    /// The text is refused. The number is that of the line, counted from 1.
    Refused(Refusal, u64),
    NoMemory,
}

/// The instance of a model: read from the named file, or generated.
pub fn obtain<F: Files>(alloc: Global, files: &mut F, source: &Source) -> Result<Instance, Unloaded>
    requires { HasSize (origin_of source.now) }
    ensures model { IfOk result (λ p. IsTheModel (F.content files.old) (origin_of source.now) p) }
    ensures unloaded { IfErr result (Unloads (F.content files.old) (origin_of source.now)) }
    ensures of_text { IfErr result IsOfText }
    ensures failed { IfErr result (λ why. why ≡ Unloaded.Failed
        → IsUnread (input_of F.content F.reading files.old files.new) (origin_of source.now)) }
    ensures same_content { F.content files.new ≡ F.content files.old }
{
    match source {
        Source::Named(name) => load(alloc, files, name.as_str()),
        Source::Made(wanted) => generate(alloc, *wanted),
    }
}

/// The instance that is to be generated. It has a size that there is, so only memory can be wanted.
fn generate(alloc: Global, wanted: Wanted) -> Result<Instance, Unloaded>
    requires { IsSize wanted.n }
    ensures lawful { IfOk result IsLawful }
    ensures made { IfOk result (λ p. p ≡ generated wanted.kind wanted.seed wanted.n) }
    ensures memory { IfErr result (λ why. why ≡ Unloaded.NoMemory) }
{
    match make(alloc, wanted.kind, wanted.seed, wanted.n) {
        Ok(inst) => {
            inst.lawful();
            Ok(inst)
        }
        Err(_) => Err(Unloaded::NoMemory),
    }
}

/// The instance that the named file stands for.
fn load<F: Files>(alloc: Global, files: &mut F, name: &str) -> Result<Instance, Unloaded>
    ensures model { IfOk result (λ p. IsTheModel (F.content files.old) (Named name.now) p) }
    ensures unloaded { IfErr result (Unloads (F.content files.old) (Named name.now)) }
    ensures of_text { IfErr result IsOfText }
    ensures failed { IfErr result (λ why. why ≡ Unloaded.Failed
        → HasRisen (F.reading files.old name.now) (F.reading files.new name.now)) }
    ensures same_content { F.content files.new ≡ F.content files.old }
{
    one_instance();
    let text = match fetch_all(alloc, files, name, TEXT_BYTES) {
        Ok(text) => text,
        Err(fault) => return Err(unfetched(fault)),
    };
    let bytes = text.as_slice();
    match read(alloc, bytes) {
        Ok(inst) => {
            inst.lawful();
            Ok(inst)
        }
        Err(why) => Err(unread(why, bytes)),
    }
}

fn unfetched(fault: FetchFault) -> Unloaded
    requires { HasFewLines fault }
    ensures { result ≡ unfetched fault }
{
    match fault {
        FetchFault::Failed => Unloaded::Failed,
        FetchFault::TooLong(lines) => {
            Unloaded::Refused(Refusal::Limit(Which::Text, TEXT_BYTES), lines + 1)
        }
        FetchFault::NoMemory => Unloaded::NoMemory,
    }
}

fn unread(why: Refusal, text: &[u8]) -> Unloaded
    requires { length text.now ≤ TEXT_BYTES }
    ensures { result ≡ unread why text.now }
{
    match why {
        Refusal::NoMemory => Unloaded::NoMemory,
        why => Unloaded::Refused(why, line_at(text, place_of(&why))),
    }
}

/// The line at a byte of the text, counted from 1.
fn line_at(text: &[u8], at: u64) -> u64
    requires { length text.now ≤ TEXT_BYTES }
    ensures { result ≡ line_at text.now at }
{
    let before = at.min(text.len() as u64) as usize;
    line_count(&text[..before]) + 1
}
