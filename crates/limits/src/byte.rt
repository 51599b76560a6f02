// The limits as bytes, which is what the numbers of cabinets, clients, slots and versions are. A limit above 255 is refused here.
pub const MOST_CABINETS: u8 = super::MOST_CABINETS as u8;

pub const MOST_CLIENTS: u8 = super::MOST_CLIENTS as u8;

pub const MOST_SLOTS: u8 = super::MOST_SLOTS as u8;

pub const MOST_VERSIONS: u8 = super::MOST_VERSIONS as u8;

pub const TO_FACTORY: u8 = super::TO_FACTORY as u8;
