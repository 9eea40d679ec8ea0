// Whether the route calls answer what the words of a case say.
use crate::answer::{Rest, high, low};

// A route as the file has it: 1 and its two words, or 0 and 0 and 0 for none.
fn route_words(route: Option<u64>) -> [u32; 3] {
    match route {
        Some(v) => [1, low(v), high(v)],
        None => [0, 0, 0],
    }
}

// The words say a route and an adapter; then its depth, its upstream route and its downstream route.
pub fn route_agrees(rest: Rest<'_>) -> Option<bool> {
    let (way, rest) = rest.wide()?;
    let (adapter, rest) = rest.number()?;
    let rest = rest.after(&[route::depth(way)])?;
    let rest = rest.after(&route_words(route::upstream_route(way)))?;
    let down = route::downstream_route(way, (adapter % 256) as u8);
    Some(rest.is(&route_words(down)))
}

// The words say a router's route and a device's, of one domain; then 1 and the adapter between them, or 0 and 0.
pub fn beneath_agrees(rest: Rest<'_>) -> Option<bool> {
    let (way, rest) = rest.wide()?;
    let (device, rest) = rest.wide()?;
    match route::downstream_adapter(0, way, 0, device) {
        Some(n) => Some(rest.is(&[1, n as u32])),
        None => Some(rest.is(&[0, 0])),
    }
}
