// Laws of the part rule and of scans, on values; no function.
