//! Shops: each server is free or serves one job, and a job begins only where a server is spare.
ghost use Rattle.shop_laws.specs.ServerLaws.{ServersLaw, BeginningsLaw};

/// In every reached state of a shop, at each station: the servers that serve nobody and those of the services under way are
/// all servers, each once; and no more are busy than there are. A job begins only where fewer servers are busy than are
/// open, at a station that works.
pub fn law_servers()
    ensures servers { ServersLaw }
    ensures beginnings { BeginningsLaw }
{}
