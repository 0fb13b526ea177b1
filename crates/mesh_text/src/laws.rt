ghost use Rattle.std.specs.Prelude.{◌≡◌, List, ℕ, nat_eq};
ghost use Rattle.std.specs.Ordering.{nat_cmp};
ghost use Rattle.std.specs.Cmp.Lexicographic.{slice_cmp, pointwise};
ghost use Rattle.mesh_text.specs.Kinds.{place};
ghost use Rattle.mesh_text.specs.declared.ip.Ip.{Ip};
ghost use Rattle.mesh_text.specs.declared.kind.Kind.{Kind};
ghost use Rattle.mesh_text.specs.contracts.ip.IpOrd.TheImpl as ip_order;
ghost use Rattle.mesh_text.specs.contracts.kind.KindOrd.TheImpl as kind_order;
ghost use Rattle.mesh_text.specs.contracts.names.ClusterNameOrd.TheImpl as cluster_order;
ghost use Rattle.mesh_text.specs.contracts.names.ClusterNamePartialEq.TheImpl as cluster_equality;
ghost use Rattle.mesh_text.specs.contracts.names.PartNameOrd.TheImpl as part_order;
ghost use Rattle.mesh_text.specs.contracts.names.PartNamePartialEq.TheImpl as part_equality;
ghost use Rattle.mesh_text.specs.Laws.{ReadsWrittenAddress, ReadsAddressInRange, NoTextOfBothFamilies, CanonicalTextStays, FindsFirstLongestRun, ReadsDecimalAlone, FaultlessAreClusterNames, FaultlessArePartNames, UnescapesEscaped, EscapesVisibly, ip_cmp};

/// Reading the canonical text of an address gives the address again, for every address.
pub fn reads_written_address()
    ensures { ReadsWrittenAddress }
{}

/// Every address that is read has the bits of its family.
pub fn reads_address_in_range()
    ensures { ReadsAddressInRange }
{}

/// No text is an IPv4 text and an IPv6 text, so it does not matter which is tried first.
pub fn no_text_of_both_families()
    ensures { NoTextOfBothFamilies }
{}

/// The canonical text is an address text, and printing what is read of it gives it again.
pub fn canonical_text_stays()
    ensures { CanonicalTextStays }
{}

/// The run of zero fields that `::` may stand for is the longest one, and the first of that length.
pub fn finds_first_longest_run()
    ensures { (fields : List ℕ) → FindsFirstLongestRun fields }
{}

/// A number of 64 bits has one text, and nothing else is read.
pub fn reads_decimal_alone()
    ensures { ReadsDecimalAlone }
{}

/// A text is a cluster name exactly where it has no fault as one.
pub fn faultless_are_cluster_names()
    ensures { FaultlessAreClusterNames }
{}

/// A text is a part name exactly where it has no fault as one.
pub fn faultless_are_part_names()
    ensures { FaultlessArePartNames }
{}

/// Unescaping what was escaped gives the bytes again.
pub fn unescapes_escaped()
    ensures { UnescapesEscaped }
{}

/// An escaped word has at least one byte, and visible ASCII characters alone.
pub fn escapes_visibly()
    ensures { EscapesVisibly }
{}

/// The order of addresses: IPv4 before IPv6, and the smaller number first.
pub fn orders_ipv4_first()
    ensures { (a b : Ip) → (ip_order.ghosts).cmp a b ≡ ip_cmp a b }
{}

/// The kinds stand in one order: nodes, services, identities, addresses.
pub fn orders_kinds_by_place()
    ensures { (a b : Kind) → (kind_order.ghosts).cmp a b ≡ nat_cmp (place a) (place b) }
{}

/// Names are equal where their bytes are, and stand in byte order.
pub fn orders_names_by_bytes()
    ensures cluster_order { (cluster_order.ghosts).cmp ≡ slice_cmp nat_cmp }
    ensures cluster_equality { (cluster_equality.ghosts).eq ≡ pointwise nat_eq }
    ensures part_order { (part_order.ghosts).cmp ≡ slice_cmp nat_cmp }
    ensures part_equality { (part_equality.ghosts).eq ≡ pointwise nat_eq }
{}
