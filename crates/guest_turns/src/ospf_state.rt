//! What an OSPF router's image tells of neighbours, LSAs and retransmission lists (docs/OSPF.md, "Image").

use table_program::Out;

/// How many bytes of an image stand before the number of own networks, how many each of these has, and
/// each entry of a list.
const FRONT: usize = 10;

const NETWORK: usize = 7;

const ENTRY: usize = 13;

/// The bytes that are left of an image.
#[derive(Drop)]
struct Image<'a> {
    rest: &'a [u8],
}

impl<'a> Image<'a> {
    /// Goes over some bytes.
    fn skip(&mut self, count: usize) {
        let (_, rest) = self.rest.split_at(count.min(self.rest.len()));
        self.rest = rest;
    }

    /// A number of one byte; 0 if there is none.
    fn byte(&mut self) -> u8 {
        let number = self.rest.first().copied().unwrap_or(0);
        self.skip(1);
        number
    }

    /// A number of two bytes.
    fn short(&mut self) -> u16 {
        let high = self.byte();
        u16::from_be_bytes([high, self.byte()])
    }

    /// Goes over a port, appends the word of its neighbour's state, and answers how long its list is.
    fn port(&mut self, out: &mut Out) -> u16 {
        self.skip(2);
        out.text(match self.byte() {
            0 => " Down",
            1 => " Init",
            _ => " Full",
        });
        self.skip(8);
        let listed = self.short();
        self.skip(usize::from(listed) * ENTRY);
        listed
    }
}

/// Appends the line of a router's state: `= STATE.., lsas N, listed M`, where the states are those of the
/// neighbours port by port, and M counts the entries of all retransmission lists.
pub fn push_state(image: &[u8], out: &mut Out) {
    let mut image = Image { rest: image };
    image.skip(FRONT);
    let networks = image.short();
    image.skip(usize::from(networks) * NETWORK);
    out.text("=");
    let mut listed = 0u64;
    for _ in 0..image.byte() {
        listed = listed.wrapping_add(u64::from(image.port(out)));
    }
    out.number(", lsas ", u64::from(image.short()));
    out.number(", listed ", listed);
    out.text("\n");
}
