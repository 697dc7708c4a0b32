//! Models that several tests run.

/// A mill serves three parts, of which two wait.
pub(super) const MILL: &str = "format = 1
model = \"shop\"
end = 20
station = [ { name = \"mill\", line = 10 } ]
class = [ { name = \"part\", first = 1, every = { law = \"fixed\", value = 2 }, count = 3, route = [ { at = \"mill\", service = { law = \"fixed\", value = 3 } } ] } ]
";

/// The same, with totals from tick 4 on.
pub(super) const MILL_FROM_4: &str = "format = 1
model = \"shop\"
end = 20
from = 4

station = [ { name = \"mill\", line = 10 } ]
class = [ { name = \"part\", first = 1, every = { law = \"fixed\", value = 2 }, count = 3, route = [ { at = \"mill\", service = { law = \"fixed\", value = 3 } } ] } ]
";

/// The same, with totals from a tick after the end on.
pub(super) const MILL_FROM_21: &str = "format = 1
model = \"shop\"
end = 20
from = 21
station = [ { name = \"mill\", line = 10 } ]
class = [ { name = \"part\", first = 1, every = { law = \"fixed\", value = 2 }, count = 3, route = [ { at = \"mill\", service = { law = \"fixed\", value = 3 } } ] } ]
";

/// A job jumps for ever, up to the limit.
pub(super) const JUMP: &str = "format = 1
model = \"shop\"
end = 5
limit = 3
class = [ { name = \"c\", times = [0], route = [ { label = \"x\", go = [\"x\"] } ] } ]
";

/// Who lost patience leaves at the tick at which a service ends.
pub(super) const PHONE: &str = "format = 1
model = \"shop\"
end = 10
station = [ { name = \"phone\" } ]
class = [ { name = \"caller\", times = [0, 1, 2], route = [ { at = \"phone\", service = { law = \"fixed\", value = 4 }, patience = { law = \"fixed\", value = 3 } } ] } ]
";
