// The calls on one device of a survey. Each loads the survey, and answers from the tables.
#![tactic(auto)]

ghost use Rattle.std.specs.Prelude.{◌≡◌};
ghost use Rattle.devices.specs.Calls.{device_answer, upstream_answer};
ghost use Rattle.devices.specs.Work.{read_device, read_outcome};
ghost use Rattle.refusal.specs.Refusal.{outcome};

use refusal::{Fault, FieldError, Refusal, Site};
use tables::DeviceFacts;
use usb4::Kind;

// What is said of a device.
#[derive(Clone, Copy)]
pub struct DeviceInfo {
    pub kind: Kind,
    pub usb4: bool,
    pub domain: u32,
    pub route: u64,
    pub depth: u32,
}

// The device at a place: 3, 4, loading, 14.
fn read_device(descriptions: &[u32], survey: &[u32], place: usize) -> Result<DeviceFacts, Refusal>
    ensures { read_outcome place result ≡ read_device descriptions.now survey.now place }
{
    let loaded = load::load(descriptions, survey);
    let tables = loaded.tables()?;
    routers::find_device(&tables, place).ok_or(Refusal::Missing)
}

// Kind, USB4, domain, route and depth.
pub fn device(descriptions: &[u32], survey: &[u32], place: usize) -> Result<DeviceInfo, Refusal>
    ensures { outcome result ≡ device_answer descriptions.now survey.now place }
{
    let d = read_device(descriptions, survey, place)?;
    Ok(DeviceInfo {
        kind: d.kind,
        usb4: d.usb4,
        domain: d.domain,
        route: d.route,
        depth: route::depth(d.route),
    })
}

// The upstream adapter's number, none, or 6.
pub fn upstream_adapter(
    descriptions: &[u32],
    survey: &[u32],
    place: usize,
) -> Result<Option<u8>, Refusal>
    ensures { outcome result ≡ upstream_answer descriptions.now survey.now place }
{
    let d = read_device(descriptions, survey, place)?;
    let upstream = d.upstream;
    match upstream {
        Ok(adapter) => Ok(adapter),
        Err(FieldError::NoField) => Err(Refusal::Fault(Fault::NoField(Site { place, adapter: 0 }))),
    }
}
