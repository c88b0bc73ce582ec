//! Laws on capture files and on the records of their frames, as contracts of functions without
//! code.
ghost use Rattle.std.specs.Prelude.{◌≡◌, ◌⊎◌, ℕ, ◌<◌, List, [], ◌++◌, map, None, Some};
ghost use Rattle.std.specs.List.{flat_map};
ghost use Rattle.urpf_base.specs.Series.{Begins};
ghost use Rattle.feed_io.specs.Packets.{records_in};
ghost use Rattle.pcap_packets.specs.Captures.{SpellsFrame, IsCapture, frame_front, pcap_records};
ghost use Rattle.pcap_packets.specs.Formats.{link_of};
ghost use Rattle.pcap_packets.specs.Frames.{frame_record, packet_record};
ghost use Rattle.pcap_packets.specs.Given.{packets_of};
ghost use Rattle.pcap_packets.specs.Spelling.{Capture, HasPacket, IsReadable, file_octets, format_in};
ghost use Rattle.pcap_packets.specs.declared.formats.Format.{Format as FileFormat};
ghost use Rattle.pcap_packets.specs.declared.formats.Link.{Link as FrameLink};
ghost use Rattle.pcap_packets.specs.declared.formats.Order.{Order as OctetOrder};
ghost use Rattle.pcap_packets.specs.declared.formats.Order.TheVariants as order;
ghost use Rattle.pcap_packets.specs.declared.formats.Link.TheVariants as link;

use crate::formats::{ETHERNET, FILE_HEADER, MICROSECONDS, NANOSECONDS, RAW_IP};
use crate::frames::{IPV4, IPV6, VLAN_TAG};
use crate::part::CAPTURED_OCTETS;
use feed_io::FILE_OCTETS;

/// The numbers of capture files and of Ethernet frames (pcap-savefile(5); draft-ietf-opsawg-pcap,
/// section 4; RFC 894; RFC 2464, section 3; IEEE 802.1Q, section 9.5), and two limits of our own: a
/// frame of 256 KiB, and a file of 4 TiB. Definitions cite them by name.
pub fn assigned_numbers()
    ensures magics { (MICROSECONDS ≡ 2712847316) × (NANOSECONDS ≡ 2712812621) }
    ensures header { FILE_HEADER ≡ 24 }
    ensures links { (ETHERNET ≡ 1) × (RAW_IP ≡ 101) }
    ensures types { (IPV4 ≡ 2048) × (IPV6 ≡ 34525) × (VLAN_TAG ≡ 33024) }
    ensures limits { (CAPTURED_OCTETS ≡ 262144) × (FILE_OCTETS ≡ 4398046511104) }
{}

/// A capture file gives the records of its frames, one after the other, whatever its numbers are in
/// which order of octets, and where no frame is found none stands.
pub fn one_capture()
    ensures whole { (text : List ℕ) (format : FileFormat) (frames : List (List ℕ)) (iface : ℕ)
        → IsCapture text format frames → pcap_records text iface ≡ flat_map (frame_record format.link iface) frames }
    ensures spelled { (order : OctetOrder) (link : FrameLink) (c : Capture) → IsReadable c → link_of c.link ≡ Some link
        → IsCapture (file_octets order c) (format_in order link) (map (λ r. r.frame) c.captured) }
    ensures either_order { (c : Capture) (iface : ℕ) → IsReadable c
        → pcap_records (file_octets order.BigEndian c) iface ≡ pcap_records (file_octets order.LittleEndian c) iface }
    ensures off { (order : OctetOrder) (text frame rest : List ℕ) → Begins (SpellsFrame order) text frame rest
        → frame_front order text ≡ None → ⊥ }
{}

/// A frame gives the record of its packet, and gives nothing where it has none. The octets that
/// are given are packet records on this interface, and nothing else: no marker is among them.
pub fn one_packet_each()
    ensures ethernet { (iface : ℕ) (frame packet : List ℕ) → HasPacket frame packet
        → frame_record link.Ethernet iface frame ≡ packet_record iface packet }
    ensures raw { (iface : ℕ) (frame : List ℕ) → frame_record link.Raw iface frame ≡ packet_record iface frame }
    ensures other { (iface : ℕ) (frame : List ℕ) → ((packet : List ℕ) → HasPacket frame packet → ⊥)
        → frame_record link.Ethernet iface frame ≡ [] }
    ensures records { (link : FrameLink) (iface : ℕ) (frames : List (List ℕ)) → iface < 65536
        → records_in (flat_map (frame_record link iface) frames) ≡ flat_map (packets_of link iface) frames }
{}
